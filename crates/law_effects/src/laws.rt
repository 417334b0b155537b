// Laws one by one: whether a law applies, and what it does where it applies.
ghost use Rattle.std.specs.Prelude.{◌≡◌, not, ◌&&◌, take};
ghost use Rattle.transitions.specs.Meaning.{satisfies_head};
ghost use Rattle.law_effects.specs.Applying.{read, contradicts, applies_at_start, applies_in_step};
ghost use Rattle.law_effects.specs.Effects.{effect_of};

use crate::literals;
use action_language::{Head, Kind, Law};

// What a law does in a step: nothing, or it causes the literal of a code, which holds in the new state, or it contradicts that state.
#[derive(Clone, Copy, Debug, PartialEq, Eq)]
pub enum Effect {
    Idle,
    Causes(u8),
    Contradicts,
}

// A step: the number of fluents, the old state, the actions done there, and the new state.
#[derive(Clone, Copy)]
pub struct Step<'a> {
    pub fluents: usize,
    pub old: &'a [u8],
    pub done: &'a [u8],
    pub new: &'a [u8],
}

// Whether the head holds in a state; false never does.
pub fn head_holds(head: Head, state: &[u8]) -> bool
    ensures { result ≡ satisfies_head (read state.now) head }
{
    match head {
        Head::Lit(code) => literals::satisfies(0, state, state, code),
        Head::False => false, // in every state
    }
}

// The first codes of a list's six places; a count that is larger than the list means the whole list.
fn counted(codes: &[u8; 6], count: u8) -> &[u8]
    ensures { result.now ≡ take count codes.now }
{
    &codes[..usize::from(count).min(codes.len())]
}

// What a law with this head does to the new state, where it applies and where not.
pub fn head_effect(head: Head, applied: bool, new: &[u8]) -> Effect
    ensures { result ≡ effect_of (read new.now) head applied }
{
    if !applied {
        return Effect::Idle;
    }
    match head {
        Head::Lit(code) if literals::satisfies(0, new, new, code) => Effect::Causes(code),
        Head::Lit(_) | Head::False => Effect::Contradicts,
    }
}

impl Step<'_> {
    // A law applies in a step if its if-list holds in the new state and, for a dynamic law, its after-list in the old state and
    // the actions done there.
    pub fn applies(self, law: Law) -> bool
        ensures { result ≡ applies_in_step self.entry.fluents (read self.entry.old.now) (read self.entry.done.now)
            (read self.entry.new.now) law }
    {
        let ifs = counted(&law.if_codes, law.if_count);
        let afters = counted(&law.after_codes, law.after_count);
        literals::holds(0, self.new, self.new, ifs)
            && match law.kind {
                Kind::Static => true,
                Kind::Dynamic => literals::holds(self.fluents, self.old, self.done, afters),
            }
    }

    // What a law does in a step. A law whose head is known to be caused is not tried again: it does nothing more.
    pub fn effect_of(self, law: Law, known: bool) -> Effect
        ensures { result ≡ effect_of (read self.entry.new.now) law.head (not known
            && applies_in_step self.entry.fluents (read self.entry.old.now) (read self.entry.done.now)
            (read self.entry.new.now) law) }
    {
        if known {
            return Effect::Idle;
        }
        head_effect(law.head, self.applies(law), self.new)
    }
}

// A state breaks a static law if the if-list holds in it and the head does not. No dynamic law speaks of a state alone.
pub fn breaks(state: &[u8], law: Law) -> bool
    ensures { result ≡ contradicts (applies_at_start (read state.now)) (read state.now) law }
{
    let ifs = counted(&law.if_codes, law.if_count);
    match law.kind {
        Kind::Static => literals::holds(0, state, state, ifs) && !head_holds(law.head, state),
        Kind::Dynamic => false,
    }
}
