// The lowest fault of each kind that a set of literals can have by itself: an atom with both values, and a literal outside the least
// closed set.
#![tactic(auto)]

ghost use Rattle.std.specs.Prelude.{◌≡◌, length};
ghost use Rattle.basics.specs.Search.{first, range};
ghost use Rattle.basics.specs.Refusals.{place_of};
ghost use Rattle.logic_programs.specs.Literals.{set_of};
ghost use Rattle.answer_set_theory.specs.Verdicts.{both_values, is_unfounded};
ghost use Rattle.literal_sets.specs.Marks.{marked};

use literal_sets::marks;

// The lowest atom with both values.
pub fn first_clash(values: &[u8]) -> Option<usize>
    ensures { place_of result ≡ first (both_values (set_of values.now)) 0 (range 0 (length values.now)) }
{
    values.iter().position(|value| *value == 3)
}

// Whether a literal of the set is outside the least closed one.
fn is_unfounded(x: &[u64], least: &[u64], code: usize) -> bool
    ensures { result ≡ is_unfounded (marked x.now) (marked least.now) code }
{
    marks::has(x, code) && !marks::has(least, code)
}

// The lowest literal of the set outside the least closed one.
pub fn first_unfounded(x: &[u64], least: &[u64], codes: usize) -> Option<usize>
    ensures { place_of result ≡ first (is_unfounded (marked x.now) (marked least.now)) 0 (range 0 codes) }
{
    if x == least {
        return None;
    }
    for code in 0..codes {
        if is_unfounded(x, least, code) {
            return Some(code);
        }
    }
    None
}
