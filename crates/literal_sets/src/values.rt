// Value bytes, one an atom: 0 none, 1 true, 2 false, 3 both.
ghost use Rattle.std.specs.Prelude.{◌≡◌};
ghost use Rattle.basics.specs.Search.{first};
ghost use Rattle.basics.specs.Replies.{refusal};
ghost use Rattle.basics.specs.Refusals.{place_of, tested_of, Numbered};
ghost use Rattle.logic_programs.specs.Literals.{set_of, holds_true, holds_false, none_or_both, bad_value};
ghost use Rattle.logic_programs.specs.ValueFaults.{value_fault};
ghost use Rattle.literal_sets.specs.Faults.{fault_of};

use basics::{Reason, Refusal};

// The lowest index of a byte over 3.
fn bad_value(values: &[u8]) -> Option<usize>
    ensures { place_of result ≡ bad_value values.now }
{
    values.iter().position(|value| 3 < *value)
}

// Refusal 11: the lowest index of a byte over 3.
pub fn check_values(values: &[u8]) -> Result<(), Refusal>
    ensures answers { tested_of result ≡ refusal 11 (bad_value values.now) }
    ensures numbered { Numbered result }
{
    match bad_value(values) {
        Some(place) => Err(Refusal {
            reason: Reason::BadValue,
            place,
        }),
        None => Ok(()),
    }
}

// The lowest atom that has no value or both.
fn first_none_or_both(values: &[u8]) -> Option<usize>
    ensures { place_of result ≡ first none_or_both 0 values.now }
{
    values.iter().position(|value| *value == 0 || *value == 3)
}

// An atom without a value, or an atom with both.
#[derive(Clone, Copy, Debug, PartialEq, Eq)]
pub enum Fault {
    Missing(usize),
    Clash(usize),
}

// The lowest atom without one value, and which fault it is; none where each atom has one value.
pub fn first_fault(values: &[u8]) -> Option<Fault>
    ensures { fault_of result ≡ value_fault values.now }
{
    let atom = first_none_or_both(values)?;
    if values[atom] == 0 {
        return Some(Fault::Missing(atom));
    }
    Some(Fault::Clash(atom))
}

// Whether a value makes its atom true.
#[tactic(auto, unfolding(logic_programs::specs::Literals::holds_true))]
fn is_true(value: u8) -> bool
    ensures { result ≡ holds_true value }
{
    value == 1 || value == 3
}

// Whether a value makes its atom false.
#[tactic(auto, unfolding(logic_programs::specs::Literals::holds_false))]
fn is_false(value: u8) -> bool
    ensures { result ≡ holds_false value }
{
    value == 2 || value == 3
}

// Whether a literal is in the set that the values stand for. An atom past the last value has none.
#[tactic(auto, unfolding(logic_programs::specs::Literals::set_of))]
pub fn has(values: &[u8], code: usize) -> bool
    ensures { result ≡ set_of values.now code }
{
    let Some(value) = values.get(code / 2).copied() else {
        return false;
    };
    if code % 2 == 0 {
        return is_true(value);
    }
    is_false(value)
}
