// Literals and lists of literals in a state: the old state with the actions done there, or the new one.
ghost use Rattle.std.specs.Prelude.{◌≡◌, not, cond, ◌%◌, eqb};
ghost use Rattle.transitions.specs.Meaning.{satisfies, holds, together};
ghost use Rattle.law_effects.specs.Applying.{read};

use crate::values;

// Whether the literal of a code holds where its fluent or action has this value.
pub fn literal_holds(code: usize, value: bool) -> bool
    ensures { result ≡ cond (eqb (code % 2) 0) value (not value) }
{
    if code % 2 == 0 { value } else { !value }
}

// Whether the literal of a code holds in a state and the actions done in it: codes below 2n speak of the state, the others
// of the actions. With n = 0 all codes speak of done, so that a state alone is lent there.
pub fn satisfies(n: usize, old: &[u8], done: &[u8], code: u8) -> bool
    ensures { result ≡ satisfies (together n (read old.now) (read done.now)) code }
{
    let code = usize::from(code);
    let i = code / 2;
    if i < n {
        return literal_holds(code, values::is_true(old, i));
    }
    literal_holds(code, values::is_true(done, i - n))
}

// All literals of a list hold there; those of an empty list always do.
pub fn holds(n: usize, old: &[u8], done: &[u8], codes: &[u8]) -> bool
    ensures { result ≡ holds (together n (read old.now) (read done.now)) codes.now }
{
    codes.iter().all(|code| satisfies(n, old, done, *code))
}
