// What the lines of an answer show, decided before anything is written.
ghost use Rattle.std.specs.Prelude.{◌≡◌, List, ℕ};
ghost use Rattle.history_check.specs.Checks.{finding_of};
ghost use Rattle.causal_reading.specs.Readings.{reply_of};
ghost use Rattle.printed_lines.specs.Printed as printed;
ghost use Rattle.output_lines.specs.Internal.{verdict_bytes, bare_shown, causal_bytes};

use crate::words::Word;
use basics::Refusal;
use causal_reading::Reading;
use history_check::Finding;

// What stands behind an equals sign: nothing, a word, a number, or the name of a fluent.
#[derive(Clone, Copy)]
pub(crate) enum Value {
    Nothing,
    Word(Word),
    Number(usize),
    Fluent(usize),
}

// A line: its key, and what stands behind the equals sign.
#[derive(Clone, Copy)]
pub(crate) struct Line(pub Word, pub Value);

// A verdict, and what it names.
#[derive(Clone, Copy)]
pub(crate) struct Verdict {
    pub answer: Word,
    pub at: Value,
}

// A causal verdict, its time and its item.
#[derive(Clone, Copy)]
pub(crate) struct Causal {
    pub causal: Word,
    pub time: Value,
    pub item: Value,
}

// What is shown of what the history check finds.
pub(crate) fn verdict_of(finding: Finding) -> Verdict
    ensures { (input : List ℕ) → verdict_bytes input result ≡ printed.finding_lines (finding_of finding) }
{
    match finding {
        Finding::Missing(atom) => Verdict {
            answer: Word::Missing,
            at: Value::Number(atom),
        },
        Finding::Clash(atom) => Verdict {
            answer: Word::Clash,
            at: Value::Number(atom),
        },
        Finding::Broken(rule) => Verdict {
            answer: Word::Broken,
            at: Value::Number(rule),
        },
        Finding::Unfounded(code) => Verdict {
            answer: Word::Unfounded,
            at: Value::Number(code),
        },
        Finding::Passes => Verdict {
            answer: Word::Passes,
            at: Value::Nothing,
        },
    }
}

// A word with neither time nor item.
fn bare(causal: Word) -> Causal
    ensures { result ≡ bare_shown causal }
{
    Causal {
        causal,
        time: Value::Nothing,
        item: Value::Nothing,
    }
}

// What is shown of a causal reading; a refusal is shown as none.
fn causal_of(reading: Result<Reading, Refusal>) -> Causal
    ensures { (input : List ℕ) → causal_bytes input result ≡ printed.reading_lines input (reply_of reading) }
{
    match reading {
        Err(_) => bare(Word::None),
        Ok(Reading::Contradicted { time, law }) => Causal {
            causal: Word::Contradicted,
            time: Value::Number(time),
            item: Value::Number(law),
        },
        Ok(Reading::Uncaused { time, fluent }) => Causal {
            causal: Word::Uncaused,
            time: Value::Number(time),
            item: Value::Fluent(fluent),
        },
        Ok(Reading::Path) => bare(Word::Path),
    }
}

// What is shown of a causal reading behind what the history check finds: none after missing or clash.
pub(crate) fn causal_after(finding: Finding, reading: Result<Reading, Refusal>) -> Causal
    ensures { (input : List ℕ) → causal_bytes input result ≡ printed.causal_after input (finding_of finding) (reply_of reading) }
{
    match finding {
        Finding::Missing(_) | Finding::Clash(_) => bare(Word::None),
        Finding::Broken(_) | Finding::Unfounded(_) | Finding::Passes => causal_of(reading),
    }
}
