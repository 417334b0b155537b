// The published translation of action language C into rules (000, section 4), written as words into a lent table.
#![tactic(auto)]

ghost use Rattle.std.specs.Prelude.{◌≡◌, true, length, Err, IfErr};
ghost use Rattle.basics.specs.Refusals.{is_own, tested_of, Numbered};
ghost use Rattle.translation.specs.Answers.{outcome_of};
ghost use Rattle.translation_rules.specs.Translated.{outcome, table_after, outcome_for, table_after_for};

use action_language::{Description, Law};
use basics::{Reason, Refusal};

mod sizes;
mod writers;

// How many atoms, rules and words a translation has.
#[derive(Clone, Copy, Debug, PartialEq, Eq)]
pub struct Written {
    pub atoms: usize,
    pub rules: usize,
    pub words: usize,
}

// What the translation answers for a table of so many words. Nothing is written.
pub fn measure(d: Description, laws: &[Law], room: usize) -> Result<Written, Refusal>
    ensures answers { outcome_of result ≡ outcome d laws.now (length laws.now) room }
    ensures numbered { Numbered result }
{
    record_acceptance::check(d, laws)?;
    let needed = sizes::sizes_needed(d, laws);
    if room < needed.words {
        return Err(Refusal {
            reason: Reason::ShortTable,
            place: needed.words,
        });
    }
    Ok(needed)
}

// Writes the translation of the laws that the description counts. Nothing is written where the answer is a refusal.
pub fn translate(d: Description, laws: &[Law], table: &mut [u16]) -> Result<Written, Refusal>
    ensures answers { outcome_of result ≡ outcome d laws.now (length laws.now) (length table.old) }
    ensures numbered { Numbered result }
    ensures leaves { table.new ≡ table_after d laws.now (length laws.now) table.old }
{
    let written = measure(d, laws, table.len())?;
    writers::write_table(table, d, laws);
    Ok(written)
}

// Writes the translation that a history of these values is checked against. Behind its own refusals come 10 and 11 on the
// values, then what the caller's own tests said; nothing is written where one of them refuses.
pub fn translate_for_history(
    d: Description,
    laws: &[Law],
    values: &[u8],
    later: Result<(), Refusal>,
    table: &mut [u16],
) -> Result<Written, Refusal>
    ensures answers { outcome_of result
        ≡ outcome_for d laws.now (length laws.now) values.now (tested_of later) (length table.old) }
    ensures numbered { IfErr result (λ refusal. is_own refusal.reason ≡ true → later ≡ Err refusal) }
    ensures leaves { table.new
        ≡ table_after_for d laws.now (length laws.now) values.now (tested_of later) table.old }
{
    let written = measure(d, laws, table.len())?;
    if values.len() != written.atoms {
        return Err(Refusal {
            reason: Reason::WrongCount,
            place: values.len(),
        });
    }
    literal_sets::values::check_values(values)?;
    later?;
    writers::write_table(table, d, laws);
    Ok(written)
}
