// The library's face over a lent run of law records: each function hands on what the one below it answers, and promises besides what
// such an answer means.
#![tactic(auto)]

ghost use Rattle.std.specs.Prelude.{◌≡◌, IfOk, length};
ghost use Rattle.basics.specs.Refusals.{Numbered};
ghost use Rattle.translation.specs.Answers.{outcome_of};
ghost use Rattle.translation_rules.specs.Translated.{outcome, table_after};
ghost use Rattle.history_check.specs.Checks;
ghost use Rattle.causal_reading.specs.Readings;
ghost use Rattle.description_lines.specs.Descriptions.{described};
ghost use Rattle.description_lines.specs.Answers.{replied, record_of, laws_left};
ghost use Rattle.description_reader.specs.Answers.{reply_of};
ghost use Rattle.correctness.specs.Promises.{TranslatesExactly, PassesExactly, SaysByValues, PathExactly};
ghost use Rattle.correctness.specs.CausalFaults.{NamesFault};
ghost use Rattle.reader_bounds.specs.Taking.{TakesAccepted};

use action_language::{Description, Law};
use basics::Refusal;
use causal_reading::Reading;
use description_reader::Read;
use history_check::Finding;
use translation::Written;

// Reads a description's text into the run lent: the laws read, and behind them the old records. On a refusal every record stays.
pub fn read_description(text: &[u8], laws: &mut [Law]) -> Result<Read, Refusal>
    ensures answers { reply_of result ≡ replied text.now (described (length laws.old) text.now) }
    ensures description { IfOk result (λ read. read.description ≡ record_of (described (length laws.old) text.now)) }
    ensures leaves { laws.new ≡ laws_left (described (length laws.old) text.now) laws.old }
    ensures accepted { IfOk result (λ read. TakesAccepted (reply_of result) read.description laws.new) }
    ensures numbered { Numbered result }
{
    description_reader::read_description(text, laws)
}

// Writes the translation of the laws that the description counts, of those lent.
pub fn translate(d: Description, laws: &[Law], table: &mut [u16]) -> Result<Written, Refusal>
    ensures answers { outcome_of result ≡ outcome d laws.now (length laws.now) (length table.old) }
    ensures numbered { Numbered result }
    ensures leaves { table.new ≡ table_after d laws.now (length laws.now) table.old }
    ensures demand_3 { TranslatesExactly d laws.now (length laws.now) table.old table.new }
{
    translation::translate(d, laws, table)
}

// Checks values, one byte an atom, against the description's translation, which is left in the table unless the answer is a
// refusal.
pub fn check_history(
    d: Description,
    laws: &[Law],
    values: &[u8],
    table: &mut [u16],
) -> Result<Finding, Refusal>
    ensures answers { Checks.reply_of result
        ≡ Checks.checked d laws.now (length laws.now) values.now
        (length table.old) }
    ensures numbered { Numbered result }
    ensures leaves { table.new
        ≡ Checks.table_after d laws.now (length laws.now) values.now table.old }
    ensures demand_3 { PassesExactly d laws.now (length laws.now) values.now (length table.old) result }
    ensures by_values { SaysByValues d laws.now (length laws.now) values.now (length table.old) result }
{
    history_check::check_history(d, laws, values, table)
}

// Reads values as a history, state by state.
pub fn causal_reading(d: Description, laws: &[Law], values: &[u8]) -> Result<Reading, Refusal>
    ensures answers { Readings.reply_of result
        ≡ Readings.reading d laws.now (length laws.now) values.now }
    ensures numbered { Numbered result }
    ensures demand_3 { PathExactly d laws.now (length laws.now) values.now result }
    ensures fault { NamesFault d laws.now (length laws.now) values.now result }
{
    causal_reading::causal_reading(d, laws, values)
}

// What the check of a history and the reading of it say.
#[derive(Clone, Copy, Debug, PartialEq, Eq)]
pub struct Judged {
    pub checked: Result<Finding, Refusal>,
    pub reading: Result<Reading, Refusal>,
}

// Checks values as a history, and then reads them as one. The table is left as the check leaves it: with the description's translation,
// or as it was where the check refuses.
pub fn judge(d: Description, laws: &[Law], values: &[u8], table: &mut [u16]) -> Judged
    ensures checked { Checks.reply_of result.checked
        ≡ Checks.checked d laws.now (length laws.now) values.now (length table.old) }
    ensures reading { Readings.reply_of result.reading ≡ Readings.reading d laws.now (length laws.now) values.now }
    ensures numbered_checked { Numbered result.checked }
    ensures numbered_reading { Numbered result.reading }
    ensures leaves { table.new ≡ Checks.table_after d laws.now (length laws.now) values.now table.old }
    ensures demand_3_checked { PassesExactly d laws.now (length laws.now) values.now (length table.old) result.checked }
    ensures by_values_checked { SaysByValues d laws.now (length laws.now) values.now (length table.old) result.checked }
    ensures demand_3_reading { PathExactly d laws.now (length laws.now) values.now result.reading }
    ensures fault { NamesFault d laws.now (length laws.now) values.now result.reading }
{
    Judged {
        checked: check_history(d, laws, values, table),
        reading: causal_reading(d, laws, values),
    }
}
