// What a line of a history does to the values of its time: the literals that it lists are marked, and the actions that an act line
// does not list are false.
#![tactic(auto)]

ghost use Rattle.std.specs.Prelude.{◌≡◌, cond, [], ◌∷◌, ◌+◌, ◌-◌, eqb};
ghost use Rattle.history_values.specs.Values.{with_true, with_false, with_literals, or_false, filled};

// A value byte with one more literal of its atom.
fn with_literal(v: u8, sign: usize) -> u8
    ensures { result ≡ cond (eqb sign 0) (with_true v) (with_false v) }
{
    match sign {
        0 if v % 2 == 0 => v + 1,
        0 => v,
        _ if v < 2 => v + 2,
        _ => v,
    }
}

// Marks a literal of one time, whose values begin at place base. A place past the values is left out.
pub fn mark(values: &mut [u8], base: usize, code: usize)
    ensures { values.new ≡ with_literals base values.old (code ∷ []) }
{
    let place = base.saturating_add(code / 2);
    if place < values.len() {
        values[place] = with_literal(values[place], code % 2);
    }
}

// An action's value behind its act line: false where the line lists no literal of it.
fn or_false(v: u8) -> u8
    ensures { result ≡ or_false v }
{
    if v == 0 {
        return 2;
    }
    v
}

// Fills the values behind a line whose values begin at place base and whose names end at high: what lies between the fluents and high
// are the actions of an act line. In a state line the names end where the fluents do, so that nothing is filled.
pub fn fill_absent(values: &mut [u8], base: usize, fluents: usize, high: usize)
    ensures { values.new ≡ filled (base + fluents) (high - fluents) values.old }
{
    for i in fluents..high {
        let place = base.saturating_add(i);
        if values.len() <= place {
            break;
        }
        values[place] = or_false(values[place]);
    }
}
