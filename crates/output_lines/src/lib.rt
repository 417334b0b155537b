// The lines that are printed for an answer: the nine lines of a history check, or a refusal. Each function stores its bytes as far as
// the buffer goes, and returns how many there are in all.
#![tactic(auto)]

mod shown;
mod words;

ghost use Rattle.std.specs.Prelude.{◌≡◌, ◌++◌, ◌+◌, ◌≤◌, length};
ghost use Rattle.std.proofs.lemmas.List.Edits.{sets};
ghost use Rattle.basics.specs.Refusals.{number_of};
ghost use Rattle.history_check.specs.Checks;
ghost use Rattle.causal_reading.specs.Readings;
ghost use Rattle.printed_lines.specs.Printed.{refusal_lines, count_lines, checked_lines, finding_lines, causal_after};
ghost use Rattle.arrayvec.specs.ArrayVec.{array_vec_len};
ghost use Rattle.output_lines.specs.Internal.{value_bytes, line_bytes, lines_bytes};

use arrayvec::ArrayVec;
use basics::Refusal;
use causal_reading::Reading;
use history_check::Finding;
use shown::{Line, Value};
use words::Word;

// What the output says of a translation.
#[derive(Clone, Copy, Debug, PartialEq, Eq)]
pub struct Counts {
    pub horizon: usize,
    pub atoms: usize,
    pub rules: usize,
    pub words: usize,
}

// What is printed, before it is stored: no output is longer than 400 bytes.
type Text = ArrayVec<u8, 400>;

// Adds some bytes.
fn add(text: &mut Text, bytes: &[u8])
    requires { array_vec_len text.old + length bytes.now ≤ 400 }
    ensures items { text.new.items ≡ text.old.items ++ bytes.now }
    ensures len { array_vec_len text.new ≡ array_vec_len text.old + length bytes.now }
{
    text.try_extend_from_slice(bytes).unwrap();
}

// Adds what stands behind an equals sign; of a number its decimal digits.
fn add_value(text: &mut Text, input: &[u8], value: Value)
    requires { array_vec_len text.old ≤ 379 }
    ensures fact { text.new.items ≡ text.old.items ++ value_bytes input.now value }
    ensures upper_bound { array_vec_len text.new ≤ array_vec_len text.old + 20 }
{
    match value {
        Value::Nothing => {}
        Value::Word(word) => add(text, word.bytes()),
        Value::Number(number) => {
            let mut digits = [0u8; 20];
            let count = io::decimal(number as u64, &mut digits);
            add(text, &digits[..count]);
        }
        Value::Fluent(fluent) => add(text, shown_names::fluent_name(input, fluent)),
    }
}

// Adds a line: the word of its key, an equals sign, its value and byte 10.
fn add_line(text: &mut Text, input: &[u8], line: Line)
    requires { array_vec_len text.old ≤ 366 }
    ensures fact { text.new.items ≡ text.old.items ++ line_bytes input.now line }
    ensures upper_bound { array_vec_len text.new ≤ array_vec_len text.old + 34 }
{
    let Line(key, value) = line;
    add(text, key.bytes());
    text.push(b'=');
    add_value(text, input, value);
    text.push(b'\n');
}

// Stores bytes from the buffer's first one on, as far as the buffer goes.
fn store(out: &mut [u8], bytes: &[u8])
    ensures { out.new ≡ sets out.old 0 bytes.now }
{
    let held = bytes.len().min(out.len());
    out[..held].copy_from_slice(&bytes[..held]);
}

// Stores up to nine lines, one behind the other.
fn put_lines(out: &mut [u8], input: &[u8], lines: &[Line]) -> usize
    requires { length lines.now ≤ 9 }
    ensures fact { let ws = lines_bytes input.now lines.now in
        (result ≡ 0 + length ws) × (out.new ≡ sets out.old 0 ws) }
    ensures upper_bound { result ≤ 400 }
{
    let mut text = Text::new();
    for line in lines {
        add_line(&mut text, input, *line);
    }
    store(out, &text);
    text.len()
}

// A refusal's number and place, from the buffer's first byte on.
pub fn put_refusal(out: &mut [u8], refusal: Refusal) -> usize
    ensures writes { let ws = refusal_lines (number_of refusal.reason) refusal.place in
        (result ≡ 0 + length ws) × (out.new ≡ sets out.old 0 ws) }
    ensures bounded { result ≤ 400 }
{
    let number = u8::from(refusal.reason);
    let lines = [
        Line(Word::Refused, Value::Number(usize::from(number))),
        Line(Word::Place, Value::Number(refusal.place)),
    ];
    put_lines(out, b"", &lines)
}

// The counts, the verdict with what it names, and the causal verdict with its time and item.
fn put_found(
    out: &mut [u8],
    input: &[u8],
    counts: Counts,
    finding: Finding,
    reading: Result<Reading, Refusal>,
) -> usize
    ensures fact { let ws = count_lines counts.horizon counts.atoms counts.rules counts.words
        ++ (finding_lines (Checks.finding_of finding)
        ++ causal_after input.now (Checks.finding_of finding) (Readings.reply_of reading)) in
        (result ≡ 0 + length ws) × (out.new ≡ sets out.old 0 ws) }
    ensures upper_bound { result ≤ 400 }
{
    let verdict = shown::verdict_of(finding);
    let causal = shown::causal_after(finding, reading);
    let lines = [
        Line(Word::Horizon, Value::Number(counts.horizon)),
        Line(Word::Atoms, Value::Number(counts.atoms)),
        Line(Word::Rules, Value::Number(counts.rules)),
        Line(Word::Words, Value::Number(counts.words)),
        Line(Word::Answer, Value::Word(verdict.answer)),
        Line(Word::At, verdict.at),
        Line(Word::Causal, Value::Word(causal.causal)),
        Line(Word::Time, causal.time),
        Line(Word::Item, causal.item),
    ];
    put_lines(out, input, &lines)
}

// The nine lines of a history and what is found of it, or a refusal, from the buffer's first byte on.
pub fn put_checked(
    out: &mut [u8],
    input: &[u8],
    counts: Counts,
    checked: Result<Finding, Refusal>,
    reading: Result<Reading, Refusal>,
) -> usize
    ensures writes { let ws =
        checked_lines input.now (count_lines counts.horizon counts.atoms counts.rules counts.words)
        (Checks.reply_of checked) (Readings.reply_of reading) in
        (result ≡ 0 + length ws) × (out.new ≡ sets out.old 0 ws) }
    ensures bounded { result ≤ 400 }
{
    match checked {
        Err(refusal) => put_refusal(out, refusal),
        Ok(finding) => put_found(out, input, counts, finding, reading),
    }
}
