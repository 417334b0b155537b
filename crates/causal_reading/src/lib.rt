// The causal reading: whether a set of values is a path of causally explained transitions, and the first fault where not.
#![tactic(auto)]

mod history;

ghost use Rattle.std.specs.Prelude.{◌≡◌, length};
ghost use Rattle.basics.specs.Search.{first};
ghost use Rattle.basics.specs.Refusals.{place_of, Numbered};
ghost use Rattle.law_effects.specs.Applying.{read};
ghost use Rattle.causal_reading.specs.Verdicts.{path, step_verdict};
ghost use Rattle.causal_reading.specs.Readings.{verdict_of, reply_of, not_one_value, reading};

use action_language::{Description, Law};
use basics::{Reason, Refusal};
use history::History;
use law_effects::laws::Step;

// The verdict, with its time and the law or the fluent that it names.
#[derive(Clone, Copy, Debug, PartialEq, Eq)]
pub enum Reading {
    Contradicted { time: usize, law: usize },
    Uncaused { time: usize, fluent: usize },
    Path,
}

// The fault of one step, whose new state is at this time: contradicted before uncaused, and path where there is none.
pub fn step_fault(laws: &[Law], step: Step<'_>, time: usize) -> Reading
    ensures { verdict_of result ≡ step_verdict step.entry.fluents laws.now
        (read step.entry.old.now) (read step.entry.done.now) (read step.entry.new.now) time path }
{
    let tried = causal_steps::try_laws(laws, step);
    if let Some(law) = tried.contradicting {
        return Reading::Contradicted { time, law };
    }
    match causal_steps::first_uncaused(&tried.marks.marked, step.fluents, step.new) {
        Some(fluent) => Reading::Uncaused { time, fluent },
        None => Reading::Path,
    }
}

// The lowest index of a byte that is not one value, 1 true or 2 false.
fn bad_value(values: &[u8]) -> Option<usize>
    ensures { place_of result ≡ first not_one_value 0 values.now }
{
    values.iter().position(|value| !matches!(value, 1 | 2))
}

// Refusals 8, 3, 10 and 11 in this order, then the verdict.
#[tactic(auto, unfolding(crate::specs::Readings::reading))]
pub fn causal_reading(d: Description, laws: &[Law], values: &[u8]) -> Result<Reading, Refusal>
    ensures answers { reply_of result ≡ reading d laws.now (length laws.now) values.now }
    ensures numbered { Numbered result }
{
    record_acceptance::check_record(d, laws)?;
    record_acceptance::check_horizon(d.horizon)?;
    if values.len() != record_acceptance::atom_count(d.fluents, d.actions, d.horizon) {
        return Err(Refusal {
            reason: Reason::WrongCount,
            place: values.len(),
        });
    }
    if let Some(place) = bad_value(values) {
        return Err(Refusal {
            reason: Reason::BadValue,
            place,
        });
    }
    let laws = &laws[..d.laws];
    let history = History { d, laws, values };
    Ok(history.verdict())
}
