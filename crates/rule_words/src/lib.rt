// The words of the translation's rules, told by their place: of a law's rule for one time, and of an atom's choice. All is by
// value, and nothing is written.
#![tactic(auto)]

ghost use Rattle.std.specs.Prelude.{◌≡◌, ◌+◌, ◌*◌, ◌<◌, ◌≤◌, get_or};
ghost use Rattle.logic_programs.specs.Literals.{complement};
ghost use Rattle.logic_programs.specs.Words.{head_word};
ghost use Rattle.translation_rules.specs.RuleForms.{head_at};
ghost use Rattle.rule_words.specs.Internal.{rule_word, choice_words};

use crate::lists::{by_kind, negated_count, plain_count};
use action_language::{Head, Law};

pub mod lists;

// What is added to a literal's code for time t; n counts fluents and actions together.
fn shift(n: usize, t: usize) -> usize
    requires { (n ≤ 32) × (t ≤ 31) }
    ensures { (result ≡ 2 * (t * n)) × (result ≤ 1984) }
{
    2 * (t * n)
}

// The word of a law's head at time t: its literal's code, or 65535 for false.
fn head_word(head: Head, n: usize, t: usize) -> u16
    requires { (n ≤ 32) × (t ≤ 31) }
    ensures { result ≡ head_word (head_at n t head) }
{
    match head {
        Head::Lit(code) => (shift(n, t) + usize::from(code)) as u16,
        Head::False => u16::MAX,
    }
}

// The word of the negated part at place i of a law's rule: the complement of the if-list's literal there, moved on by `base`.
fn negated_word(law: Law, i: usize, base: usize) -> u16
    requires { (i < 6) × (base ≤ 1984) }
    ensures { result ≡ complement (base + get_or law.if_codes i 0) }
{
    let code = base + usize::from(law.if_codes[i]);
    if code % 2 == 0 {
        (code + 1) as u16
    } else {
        (code - 1) as u16
    }
}

// The word of the plain part at place i: the after-list's literal there, moved on by `base`.
fn plain_word(law: Law, i: usize, base: usize) -> u16
    requires { (i < 6) × (base ≤ 1984) }
    ensures { result ≡ base + get_or law.after_codes i 0 }
{
    (base + usize::from(law.after_codes[i])) as u16
}

// Word i of a law's rule for time t: its head, the counts of its negated and plain parts, the complements of its if-list, its
// after-list. A dynamic law's head and if-list are at t + 1, and its after-list is at t. Outside the limits it is 0.
pub fn rule_word(law: Law, n: usize, t: usize, i: usize) -> u16
    ensures { result ≡ rule_word n law t i }
{
    if 32 < n || 30 < t {
        return 0;
    }
    let new = by_kind(law, t, t + 1);
    let negated = negated_count(law);
    let plain = plain_count(law);
    match i {
        0 => head_word(law.head, n, new),
        1 => negated as u16,
        2 => plain as u16,
        _ if i - 3 < negated => negated_word(law, i - 3, shift(n, new)),
        _ if i - 3 - negated < plain => plain_word(law, i - 3 - negated, shift(n, t)),
        _ => 0,
    }
}

// The words of the two rules that leave an atom open: not the atom unless it is in the set, then the atom unless its negation is.
// For an atom outside the limits they are 0.
pub fn choice_words(atom: usize) -> [u16; 8]
    ensures { result ≡ choice_words atom }
{
    if 1024 <= atom {
        return [0; 8];
    }
    let positive = (2 * atom) as u16;
    let negative = positive + 1;
    [negative, 1, 0, positive, positive, 1, 0, negative]
}
