// Marks of literals, one a code.
ghost use Rattle.std.specs.Prelude.{◌≡◌, false, cond, ◌||◌, ℕ, ◌+◌, ◌*◌, length, replicate};
ghost use Rattle.causal_steps.specs.Marked.{marked_caused};
ghost use Rattle.causal_steps.specs.Internal.{head_marked, is_cause};

use action_language::Head;
use law_effects::laws::Effect;

// A mark for each code that a law can hold as its head.
#[derive(Clone, Copy)]
pub struct Marks {
    pub marked: [bool; 256],
}

// Whether a code is marked; past the last mark none is.
fn has(marked: &[bool], code: usize) -> bool
    ensures { result ≡ marked_caused marked.now code }
{
    marked.get(code) == Some(&true)
}

// Whether the literal of fluent f with this value is marked.
pub(crate) fn has_literal(marked: &[bool], f: usize, value: bool) -> bool
    ensures { result ≡ marked_caused marked.now (cond value (2 * f) (2 * f + 1)) }
{
    f < marked.len() && has(marked, if value { 2 * f } else { 2 * f + 1 })
}

impl Marks {
    // All clear.
    pub(crate) fn clear() -> Marks
        ensures { result.marked ≡ replicate 256 false }
    {
        Marks {
            marked: [false; 256],
        }
    }

    // Marks what a law has caused, if anything.
    pub(crate) fn mark(&mut self, effect: Effect)
        ensures size { length self.new.marked ≡ length self.old.marked }
        ensures cause { (c : ℕ) → marked_caused self.new.marked c ≡ (is_cause effect c || marked_caused self.old.marked c) }
    {
        if let Effect::Causes(code) = effect {
            self.marked[usize::from(code)] = true;
        }
    }

    // Whether a head is marked; false never is.
    pub(crate) fn has_head(&self, head: Head) -> bool
        ensures { result ≡ head_marked self.now.marked head }
    {
        match head {
            Head::Lit(code) => has(&self.marked, usize::from(code)),
            Head::False => false,
        }
    }
}
