// The history check: whether values are a history of a description, by its translation and the answer-set engine.
#![tactic(auto)]

ghost use Rattle.std.specs.Prelude.{◌≡◌, length};
ghost use Rattle.basics.specs.Refusals.{Numbered};
ghost use Rattle.answer_sets.specs.Answers.{verdict_of};
ghost use Rattle.history_check.specs.Checks.{judged, finding_of, of_fault, reply_of, finding, checked, table_after};

use action_language::{Description, Law};
use answer_sets::Verdict;
use basics::Refusal;
use literal_sets::values::Fault;

// The first verdict that holds with the atom, rule or literal code that it names.
#[derive(Clone, Copy, Debug, PartialEq, Eq)]
pub enum Finding {
    Missing(usize),
    Clash(usize),
    Broken(usize),
    Unfounded(usize),
    Passes,
}

// The engine's verdict as the history check's.
impl From<Verdict> for Finding {
    ghost from_gives = { λ verdict finding. finding_of finding ≡ judged (verdict_of verdict) };

    fn from(verdict: Verdict) -> Finding {
        match verdict {
            Verdict::Clash(atom) => Finding::Clash(atom),
            Verdict::Broken(rule) => Finding::Broken(rule),
            Verdict::Unfounded(code) => Finding::Unfounded(code),
            Verdict::Passes => Finding::Passes,
        }
    }
}

// An atom without one value as what the history check finds.
impl From<Fault> for Finding {
    ghost from_gives = { λ fault finding. finding_of finding ≡ of_fault fault };

    fn from(fault: Fault) -> Finding {
        match fault {
            Fault::Missing(atom) => Finding::Missing(atom),
            Fault::Clash(atom) => Finding::Clash(atom),
        }
    }
}

// Missing or clash at the lowest atom without one value, or what the engine says of these words.
pub fn verdict(values: &[u8], words: &[u16]) -> Result<Finding, Refusal>
    ensures answers { reply_of result ≡ finding values.now words.now }
    ensures numbered { Numbered result }
{
    if let Some(fault) = literal_sets::values::first_fault(values) {
        return Ok(fault.into());
    }
    let verdict = answer_sets::check_set(values, words)?;
    Ok(verdict.into())
}

// Checks values, one byte an atom, against the description's translation, which is left in the table unless the answer is a
// refusal.
pub fn check_history(
    d: Description,
    laws: &[Law],
    values: &[u8],
    table: &mut [u16],
) -> Result<Finding, Refusal>
    ensures answers { reply_of result ≡ checked d laws.now (length laws.now) values.now (length table.old) }
    ensures numbered { Numbered result }
    ensures leaves { table.new ≡ table_after d laws.now (length laws.now) values.now table.old }
{
    let written = translation::translate_for_history(d, laws, values, Ok(()), table)?;
    verdict(values, &table[..written.words])
}
