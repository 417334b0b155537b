// Refusals 10, 11 and 12: whether values and a rule table are accepted.
ghost use Rattle.std.specs.Prelude.{◌≡◌};
ghost use Rattle.basics.specs.Refusals.{tested_of, Numbered};
ghost use Rattle.basics.specs.Replies.{refusal};
ghost use Rattle.logic_programs.specs.Words.{bad_rule};
ghost use Rattle.rule_tables.specs.Acceptance.{too_many_values, tested};

use crate::table;
use basics::{Reason, Refusal};
use literal_sets::values;

// Refusal 10: over 1,024 values.
fn check_count(values: &[u8]) -> Result<(), Refusal>
    ensures answers { tested_of result ≡ refusal 10 (too_many_values values.now) }
    ensures numbered { Numbered result }
{
    let place = values.len();
    if 1024 < place {
        return Err(Refusal {
            reason: Reason::WrongCount,
            place,
        });
    }
    Ok(())
}

// Refusal 12: the word where the first rule starts that does not fit.
fn check_rules(table: &[u16], atoms: usize) -> Result<(), Refusal>
    ensures answers { tested_of result ≡ refusal 12 (bad_rule atoms table.now) }
    ensures numbered { Numbered result }
{
    match table::bad_rule(table, atoms) {
        Some(place) => Err(Refusal {
            reason: Reason::BadRule,
            place,
        }),
        None => Ok(()),
    }
}

// The first of the three whose condition is met.
#[tactic(auto, unfolding(crate::specs::Acceptance::tested))]
pub fn test(values: &[u8], table: &[u16]) -> Result<(), Refusal>
    ensures answers { tested_of result ≡ tested values.now table.now }
    ensures numbered { Numbered result }
{
    check_count(values)?;
    values::check_values(values)?;
    check_rules(table, values.len())
}
