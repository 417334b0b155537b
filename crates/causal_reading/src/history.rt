// A history with one value for each atom, and the verdict on it.
ghost use Rattle.std.specs.Prelude.{◌≡◌, suc, ◌≤◌, ◌<◌, length};
ghost use Rattle.action_language.specs.Atoms.{atom_count};
ghost use Rattle.transitions.specs.Meaning.{state_at, action_at};
ghost use Rattle.law_effects.specs.Applying.{read};
ghost use Rattle.causal_reading.specs.Verdicts.{steps_from, causal_verdict};
ghost use Rattle.causal_reading.specs.Readings.{verdict_of};

use crate::{Reading, step_fault};
use action_language::{Description, Law};
use law_effects::laws::Step;

// A description, its laws, and one value for each atom up to its horizon.
#[derive(Clone, Copy)]
pub(crate) struct History<'a> {
    pub(crate) d: Description,
    pub(crate) laws: &'a [Law],
    pub(crate) values: &'a [u8],
    ghost few_steps: { d.horizon ≤ 30 },
    ghost complete: { length values.now ≡ atom_count d.fluents d.actions d.horizon },
}

impl<'a> History<'a> {
    // The step from a time to the next: the old state, the actions and the new state are three parts of the values, each of which runs
    // on to the end.
    fn step(self, time: usize) -> Step<'a>
        requires { time < self.d.horizon }
        ensures fluents { result.fluents ≡ self.entry.d.fluents }
        ensures old { read result.old.now ≡ state_at self.entry.d.fluents self.entry.d.actions self.entry.values.now time }
        ensures done { read result.done.now ≡ action_at self.entry.d.fluents self.entry.d.actions self.entry.values.now time }
        ensures new { read result.new.now ≡ state_at self.entry.d.fluents self.entry.d.actions self.entry.values.now (suc time) }
    {
        let old = time * (self.d.fluents + self.d.actions);
        let done = old + self.d.fluents;
        let new = done + self.d.actions;
        Step {
            fluents: self.d.fluents,
            old: &self.values[old..],
            done: &self.values[done..],
            new: &self.values[new..],
        }
    }

    // Each step in turn; the first fault decides.
    fn steps(self) -> Reading
        ensures { verdict_of result
            ≡ steps_from self.entry.d.fluents self.entry.d.actions self.entry.laws.now self.entry.values.now 0 self.entry.d.horizon }
    {
        for time in 0..self.d.horizon {
            match step_fault(self.laws, self.step(time), time + 1) {
                Reading::Path => {}
                fault => return fault,
            }
        }
        Reading::Path
    }

    // The first state, to which no step leads, then each step.
    #[tactic(auto, using(crate::proofs::States::first_at_start), unfolding(crate::specs::Verdicts::causal_verdict))]
    pub(crate) fn verdict(self) -> Reading
        ensures { verdict_of result ≡ causal_verdict self.entry.d.fluents self.entry.d.actions self.entry.d.horizon
            self.entry.laws.now self.entry.values.now }
    {
        match causal_steps::first_broken(self.laws, self.values) {
            Some(law) => Reading::Contradicted { time: 0, law },
            None => self.steps(),
        }
    }
}
