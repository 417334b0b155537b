// Answers as numbers. Codes 1 to 63 are the refusals of that number; every other answer has a code above them.
#![tactic(auto)]

ghost use Rattle.std.specs.Prelude.{◌≡◌, ℕ, ◌<◌};
ghost use Rattle.basics.specs.Refusals.{reply_by};
ghost use Rattle.answer_set_theory.specs.Verdicts as engine;
ghost use Rattle.answer_sets.specs.Answers.{verdict_of};
ghost use Rattle.completion_theory.specs.Findings.{FormulaFinding};
ghost use Rattle.completion.specs.Answers as completed;
ghost use Rattle.translation_rules.specs.Translated as translated;
ghost use Rattle.translation.specs.Answers.{written_of};
ghost use Rattle.history_check.specs.Checks;
ghost use Rattle.causal_reading.specs.Verdicts.{Causal};
ghost use Rattle.causal_reading.specs.Readings;
ghost use Rattle.answer_codes.specs.Codes.{coded, pair, reply_code, verdict_code, finding_code, causal_code, written_code, read_code};
ghost use Rattle.answer_codes.specs.FormulaCodes.{formula_code};

use answer_sets::Verdict;
use basics::Refusal;
use causal_reading::Reading;
use history_check::Finding;
use translation::Written;

// A code, and 256 times a value of up to 56 bits.
#[tactic(auto, unfolding(crate::specs::Codes::coded))]
pub fn number(code: u8, value: usize) -> u64
    ensures { result ≡ coded code value }
{
    u64::from(code) + value as u64 % 72057594037927936 * 256
}

// Two numbers of up to 16 bits in one.
#[tactic(auto, unfolding(crate::specs::Codes::pair))]
fn both(high: usize, low: usize) -> usize
    ensures value { result ≡ pair high low }
    ensures upper_bound { result < 4294967296 }
{
    high % 65536 * 65536 + low % 65536
}

// An answer that has a number: what it stands for, and the code of that.
pub trait Coded {
    ghost Said: { Type 0 };

    ghost said: { Self → Said };

    ghost code: { Said → ℕ };

    fn coded(self) -> u64
        ensures { result ≡ code (said self) };
}

// A refusal's number and place, or the answer's own number.
pub fn of<T: Coded>(answer: Result<T, Refusal>) -> u64
    ensures { result ≡ reply_code T.code (reply_by T.said answer) }
{
    match answer {
        Err(refusal) => number(refusal.reason.into(), refusal.place),
        Ok(said) => said.coded(),
    }
}

// The engine's verdict: 64 to 67.
impl Coded for Verdict {
    ghost Said = { engine.Verdict };

    ghost said = { verdict_of };

    ghost code = { verdict_code };

    fn coded(self) -> u64 {
        match self {
            Verdict::Clash(atom) => number(65, atom),
            Verdict::Broken(rule) => number(66, rule),
            Verdict::Unfounded(code) => number(67, code),
            Verdict::Passes => number(64, 0),
        }
    }
}

// What the history check finds: 64 to 68.
impl Coded for Finding {
    ghost Said = { Checks.Finding };

    ghost said = { Checks.finding_of };

    ghost code = { finding_code };

    fn coded(self) -> u64 {
        match self {
            Finding::Missing(atom) => number(68, atom),
            Finding::Clash(atom) => number(65, atom),
            Finding::Broken(rule) => number(66, rule),
            Finding::Unfounded(code) => number(67, code),
            Finding::Passes => number(64, 0),
        }
    }
}

// What is found by the completion formulas: 65, 68, 72 and 73.
impl Coded for completion::Finding {
    ghost Said = { FormulaFinding };

    ghost said = { completed.finding_of };

    ghost code = { formula_code };

    fn coded(self) -> u64 {
        match self {
            completion::Finding::Missing(atom) => number(68, atom),
            completion::Finding::Clash(atom) => number(65, atom),
            completion::Finding::Fails(word) => number(73, word),
            completion::Finding::Holds => number(72, 0),
        }
    }
}

// The causal reading: 80 to 82.
impl Coded for Reading {
    ghost Said = { Causal };

    ghost said = { Readings.verdict_of };

    ghost code = { causal_code };

    fn coded(self) -> u64 {
        match self {
            Reading::Contradicted { time, law } => number(81, both(time, law)),
            Reading::Uncaused { time, fluent } => number(82, both(time, fluent)),
            Reading::Path => number(80, 0),
        }
    }
}

// A table written: 96.
impl Coded for Written {
    ghost Said = { translated.Written };

    ghost said = { written_of };

    ghost code = { written_code };

    fn coded(self) -> u64 {
        let counts = both(self.rules, self.atoms);
        number(96, self.words % 65536 * 4294967296 + counts)
    }
}

// A history read: 112.
impl Coded for () {
    ghost Said = { Unit {0} };

    ghost said = { λ done. tt };

    ghost code = { read_code };

    fn coded(self) -> u64 {
        number(112, 0)
    }
}
