// What laws do in a step: which apply, the lowest that contradicts the new state, and what is caused.
#![tactic(auto)]

pub mod marks;

ghost use Rattle.std.specs.Prelude.{◌≡◌, not};
ghost use Rattle.basics.specs.Search.{first, range};
ghost use Rattle.basics.specs.Refusals.{place_of};
ghost use Rattle.transitions.specs.Meaning.{caused};
ghost use Rattle.law_effects.specs.Applying.{read, literal_in, contradicts, applies_at_start, applies_in_step};
ghost use Rattle.causal_steps.specs.Marked.{before, marked_caused, MarksOf};

use action_language::Law;
use law_effects::laws::{Effect, Step};
use law_effects::{laws, values};
use marks::Marks;

// The lowest law that contradicts the new state, and the marks of what the laws before it cause.
#[derive(Clone, Copy)]
pub struct Tried {
    pub contradicting: Option<usize>,
    pub marks: Marks,
}

// Tries each law once, as far as the lowest that contradicts the new state. Where none does, code c is marked exactly if it is the head
// of a law that applies. What is marked holds in the new state, so a law whose head is marked already can't contradict it and is
// passed over.
pub fn try_laws(laws: &[Law], step: Step<'_>) -> Tried
    ensures contradicting { place_of result.contradicting ≡ first (contradicts
        (applies_in_step step.entry.fluents (read step.entry.old.now) (read step.entry.done.now) (read step.entry.new.now))
        (read step.entry.new.now)) 0 laws.now }
    ensures marks { MarksOf (caused step.entry.fluents (read step.entry.old.now) (read step.entry.done.now) (read step.entry.new.now)
        (before (contradicts
        (applies_in_step step.entry.fluents (read step.entry.old.now) (read step.entry.done.now) (read step.entry.new.now))
        (read step.entry.new.now)) laws.now)) result.marks.marked }
{
    let mut marks = Marks::clear();
    for (number, law) in laws.iter().enumerate() {
        match step.effect_of(*law, marks.has_head(law.head)) {
            Effect::Contradicts => {
                return Tried {
                    contradicting: Some(number),
                    marks,
                };
            }
            effect => marks.mark(effect),
        }
    }
    Tried {
        contradicting: None,
        marks,
    }
}

// The lowest of the n fluents whose literal in the state is not marked.
pub fn first_uncaused(marks: &[bool], n: usize, state: &[u8]) -> Option<usize>
    ensures { place_of result ≡ first
        (λ f. not (marked_caused marks.now (literal_in (read state.now) f))) 0 (range 0 n) }
{
    (0..n).find(|f| !marks::has_literal(marks, *f, values::is_true(state, *f)))
}

// The lowest static law that a state breaks.
pub fn first_broken(laws: &[Law], state: &[u8]) -> Option<usize>
    ensures { place_of result ≡ first
        (contradicts (applies_at_start (read state.now)) (read state.now)) 0 laws.now }
{
    laws.iter().position(|law| laws::breaks(state, *law))
}
