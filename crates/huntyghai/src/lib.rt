// The library for C and Rust (include/huntyghai.h): functions on numbers and slices of numbers. An answer is one number, its
// code and 256 times its value.
#![tactic(auto)]

ghost use Rattle.std.specs.Prelude.{◌≡◌, [], ◌∷◌, ◌≤◌, length};
ghost use Rattle.std.proofs.lemmas.List.Edits.{sets};
ghost use Rattle.answer_set_theory.specs.Answers.{answer};
ghost use Rattle.completion_theory.specs.Answers as completed;
ghost use Rattle.translation.specs.Answers.{outcome_of};
ghost use Rattle.history_check.specs.Checks;
ghost use Rattle.causal_reading.specs.Readings;
ghost use Rattle.history_reader.specs.Histories.{read_history, history_replied, values_left};
ghost use Rattle.report_theory.specs.Output.{output};
ghost use Rattle.report_theory.specs.Program.{Program};
ghost use Rattle.answer_codes.specs.Codes.{reply_code, verdict_code, finding_code, causal_code, written_code, read_code};
ghost use Rattle.answer_codes.specs.FormulaCodes.{formula_code};
ghost use Rattle.huntyghai_theory.specs.Texts.{translated_text, table_of_text, checked_text, table_of_check, reading_of_input};
ghost use Rattle.huntyghai_theory.specs.SetCodes.{SetNumbered};
ghost use Rattle.huntyghai_theory.specs.FormulaNumbers.{CompletionNumbered, LevelsNumbered};
ghost use Rattle.huntyghai_theory.specs.TextReadings.{TextTranslates, TextChecks, TextSaysValues, InputReads, InputFault};
ghost use Rattle.huntyghai_theory.specs.CodeLists.{CodeAmong};

use basics::Refusal;
use causal_reading::Reading;
use history_check::Finding;
use translation::Written;

// What the program check prints for an input, as far as the buffer goes; the result is the whole output's length, at most 400.
#[unsafe(no_mangle)]
pub extern "C" fn huntyghai_report(input: &[u8], out: &mut [u8]) -> usize
    ensures writes { (result ≡ length (output input.now))
        × (out.new ≡ sets out.old 0 (output input.now)) }
    ensures bounded { result ≤ 400 }
    ensures printed { Program input.now (output input.now) }
{
    report::report(input, out)
}

// The engine's answer to values and a table.
#[unsafe(no_mangle)]
pub extern "C" fn huntyghai_check_set(values: &[u8], table: &[u16]) -> u64
    ensures answers { result ≡ reply_code verdict_code (answer values.now table.now) }
    ensures demand_2 { SetNumbered values.now table.now result }
    ensures possible_codes { CodeAmong (10 ∷ 11 ∷ 12 ∷ 64 ∷ 65 ∷ 66 ∷ 67 ∷ []) result }
{
    answer_codes::of(answer_sets::check_set(values, table))
}

// The answer by the completion formulas to values and a table.
#[unsafe(no_mangle)]
pub extern "C" fn huntyghai_check_completion(values: &[u8], table: &[u16]) -> u64
    ensures answers { result ≡ reply_code formula_code (completed.answer values.now table.now) }
    ensures by_formulas { CompletionNumbered values.now table.now result }
    ensures possible_codes { CodeAmong (10 ∷ 11 ∷ 12 ∷ 65 ∷ 68 ∷ 72 ∷ 73 ∷ []) result }
{
    answer_codes::of(completion::check_completion(values, table))
}

// The same with a level for each literal code.
#[unsafe(no_mangle)]
pub extern "C" fn huntyghai_check_by_levels(values: &[u8], table: &[u16], levels: &[u16]) -> u64
    ensures answers { result ≡ reply_code formula_code
        (completed.answer_by_levels values.now table.now levels.now) }
    ensures by_levels { LevelsNumbered values.now table.now levels.now result }
    ensures possible_codes { CodeAmong (10 ∷ 11 ∷ 12 ∷ 13 ∷ 65 ∷ 68 ∷ 72 ∷ 73 ∷ []) result }
{
    answer_codes::of(completion::check_by_levels(values, table, levels))
}

// Reads the description at the text's start and writes its translation.
fn translate(text: &[u8], table: &mut [u16]) -> Result<Written, Refusal>
    ensures answers { reply_code written_code (outcome_of result) ≡ translated_text text.now (length table.old) }
    ensures leaves { table.new ≡ table_of_text text.now table.old }
{
    let mut laws = law_runs::no_laws();
    let read = lent_laws::read_description(text, &mut laws)?;
    translation::translate(read.description, &laws, table)
}

// Translates the description at the text's start.
#[unsafe(no_mangle)]
pub extern "C" fn huntyghai_translate(text: &[u8], table: &mut [u16]) -> u64
    ensures answers { result ≡ translated_text text.now (length table.old) }
    ensures leaves { table.new ≡ table_of_text text.now table.old }
    ensures possible_codes { CodeAmong (1 ∷ 2 ∷ 3 ∷ 4 ∷ 5 ∷ 6 ∷ 9 ∷ 96 ∷ []) result }
    ensures demand_3 { TextTranslates text.now table.old table.new }
{
    answer_codes::of(translate(text, table))
}

// Reads a history's text by the names of the description's.
#[unsafe(no_mangle)]
pub extern "C" fn huntyghai_read_history(description: &[u8], text: &[u8], values: &mut [u8]) -> u64
    ensures answers { result ≡ reply_code read_code
        (history_replied (read_history description.now text.now (length values.old))) }
    ensures leaves { values.new
        ≡ values_left (read_history description.now text.now (length values.old))
        values.old }
    ensures possible_codes { CodeAmong (1 ∷ 2 ∷ 3 ∷ 4 ∷ 5 ∷ 6 ∷ 7 ∷ 10 ∷ 112 ∷ []) result }
{
    answer_codes::of(history_reader::read_history(description, text, values))
}

// Reads the description at the text's start and checks values against it.
fn check_history(text: &[u8], values: &[u8], table: &mut [u16]) -> Result<Finding, Refusal>
    ensures answers { reply_code finding_code (Checks.reply_of result)
        ≡ checked_text text.now values.now (length table.old) }
    ensures leaves { table.new ≡ table_of_check text.now values.now table.old }
{
    let mut laws = law_runs::no_laws();
    let read = lent_laws::read_description(text, &mut laws)?;
    history_check::check_history(read.description, &laws, values, table)
}

// Checks values against the description at the text's start.
#[unsafe(no_mangle)]
pub extern "C" fn huntyghai_check_history(text: &[u8], values: &[u8], table: &mut [u16]) -> u64
    ensures answers { result ≡ checked_text text.now values.now (length table.old) }
    ensures leaves { table.new ≡ table_of_check text.now values.now table.old }
    ensures possible_codes { CodeAmong (1 ∷ 2 ∷ 3 ∷ 4 ∷ 5 ∷ 6 ∷ 9 ∷ 10 ∷ 11 ∷ 64 ∷ 65 ∷ 66 ∷ 67 ∷ 68 ∷ []) result }
    ensures demand_3 { TextChecks text.now values.now (length table.old) result }
    ensures by_values { TextSaysValues text.now values.now (length table.old) result }
{
    answer_codes::of(check_history(text, values, table))
}

// Reads a whole input, and its history causally.
fn read_causally(input: &[u8]) -> Result<Reading, Refusal>
    ensures { reply_code causal_code (Readings.reply_of result) ≡ reading_of_input input.now }
{
    let whole = inputs::read_input(input);
    whole.answer?;
    let values = &whole.values[..whole.atoms];
    causal_reading::causal_reading(whole.description, &whole.laws, values)
}

// Reads the history of a whole input causally.
#[unsafe(no_mangle)]
pub extern "C" fn huntyghai_causal_reading(input: &[u8]) -> u64
    ensures answers { result ≡ reading_of_input input.now }
    ensures possible_codes { CodeAmong (1 ∷ 2 ∷ 3 ∷ 4 ∷ 5 ∷ 6 ∷ 7 ∷ 11 ∷ 80 ∷ 81 ∷ 82 ∷ []) result }
    ensures demand_3 { InputReads input.now result }
    ensures fault { InputFault input.now result }
{
    answer_codes::of(read_causally(input))
}
