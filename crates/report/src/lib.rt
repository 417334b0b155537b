// What the program check prints: the nine lines of a history check, or a refusal.
#![tactic(auto)]

ghost use Rattle.std.specs.Prelude.{◌≡◌, ◌+◌, ◌≤◌, min, length, take};
ghost use Rattle.std.proofs.lemmas.List.Edits.{sets};
ghost use Rattle.translation_rules.specs.Translated.{outcome};
ghost use Rattle.report_theory.specs.Output.{room, after_outcome, output};
ghost use Rattle.report_theory.specs.Program.{Program};

use action_language::{Description, Law};
use output_lines::Counts;

// Room for the largest table.
fn no_table() -> [u16; 30912]
    ensures { 30912 ≡ length result }
{
    [0; 30912]
}

// Checks the values of a history, reads them causally, and writes what both say.
fn put_outcome(
    out: &mut [u8],
    input: &[u8],
    d: Description,
    laws: &[Law; 64],
    values: &[u8],
) -> usize
    ensures fact { let ws = after_outcome input.now d laws.now values.now (outcome d laws.now 64 room) in
        (result ≡ 0 + length ws) × (out.new ≡ sets out.old 0 ws) }
    ensures upper_bound { result ≤ 400 }
{
    let written = match translation::measure(d, laws, 30912) {
        Ok(written) => written,
        Err(refusal) => return output_lines::put_refusal(out, refusal),
    };
    let mut table = no_table();
    let judged = lent_laws::judge(d, laws, values, &mut table);
    let counts = Counts {
        horizon: d.horizon,
        atoms: written.atoms,
        rules: written.rules,
        words: written.words,
    };
    output_lines::put_checked(out, input, counts, judged.checked, judged.reading)
}

// Writes the output for an input from the buffer's first byte on, as far as the buffer goes, and returns how long the whole
// output is: never more than 400 bytes.
pub fn report(input: &[u8], out: &mut [u8]) -> usize
    ensures writes { (result ≡ length (output input.now))
        × (out.new ≡ sets out.old 0 (output input.now)) }
    ensures bounded { result ≤ 400 }
    ensures printed { Program input.now (output input.now) }
{
    let whole = inputs::read_input(input);
    match whole.answer {
        Err(refusal) => output_lines::put_refusal(out, refusal),
        Ok(()) => {
            let values = &whole.values[..whole.atoms];
            put_outcome(out, input, whole.description, &whole.laws, values)
        }
    }
}

// How many bytes of an output of some length a buffer holds.
pub fn held(size: usize, out: &[u8]) -> usize
    ensures bounded { (result ≤ length out.now) × (result ≡ length (take result out.now)) }
    ensures answers { result ≡ min size (length out.now) }
{
    size.min(out.len())
}
