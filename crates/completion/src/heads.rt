// The heads that have a body that holds, as marks: one for each literal code, and one behind them for false.
ghost use Rattle.std.specs.Prelude.{◌≡◌, false, ◌*◌, ◌≤◌, ◌<◌, length, replicate};
ghost use Rattle.basics.specs.Search.{all, first, range};
ghost use Rattle.basics.specs.Refusals.{place_of};
ghost use Rattle.logic_programs.specs.Literals.{set_of, complement};
ghost use Rattle.logic_programs.specs.Words.{rule_size, rule_at, rules_of};
ghost use Rattle.rule_tables.specs.Internal.{Sound};
ghost use Rattle.completion_theory.specs.Findings.{body_holds, differ};
ghost use Rattle.completion.specs.Internal.{mark_of, marked_head, held_at, failing_false};

use literal_sets::values;
use rule_tables::table::{self, Rule};

// The literal complementary to another.
#[tactic(auto, unfolding(logic_programs::specs::Literals::complement))]
fn complement(code: usize) -> usize
    requires { code < 65536 }
    ensures { result ≡ complement code }
{
    if code % 2 == 0 { code + 1 } else { code - 1 }
}

// Whether each part is in the set.
fn parts_hold(parts: &[u16], values: &[u8]) -> bool
    ensures { result ≡ all (set_of values.now) parts.now }
{
    for part in parts {
        if !values::has(values, usize::from(*part)) {
            return false;
        }
    }
    true
}

// Whether the complement of each part is.
fn complements_hold(parts: &[u16], values: &[u8]) -> bool
    ensures { result ≡ all (λ c. set_of values.now (complement c)) parts.now }
{
    for part in parts {
        if !values::has(values, complement(usize::from(*part))) {
            return false;
        }
    }
    true
}

// Whether the body of a rule holds.
fn body_holds(rule: Rule, values: &[u8]) -> bool
    ensures { result ≡ body_holds (set_of values.now) (rule_at rule.entry.words.now) }
{
    complements_hold(rule.negated(), values) && parts_hold(rule.plain(), values)
}

// 2,049 marks, all clear.
fn no_heads() -> [bool; 2049]
    ensures { result ≡ replicate 2049 false }
{
    [false; 2049]
}

// The mark of a head word: a literal's is at its code, that of false is the last.
fn mark_of(head: usize) -> usize
    ensures { result ≡ mark_of head }
{
    if head == 65535 { 2048 } else { head }
}

// Whether a mark is set; past the last none is.
fn is_held(held: &[bool], mark: usize) -> bool
    ensures { result ≡ marked_head held.now mark }
{
    held.get(mark).copied().unwrap_or(false)
}

// The heads of the rules whose bodies hold. A mark is a byte here: it is set once for each rule and asked once, and setting a bit would
// have to wait for the word that the rule before it changed.
pub(crate) fn held_heads(table: &[u16], values: &[u8]) -> [bool; 2049]
    requires { Sound table.now }
    ensures { marked_head result ≡ held_at (rules_of table.now) (set_of values.now) }
{
    let mut held = no_heads();
    let mut rest = table;
    while !rest.is_empty() {
        let rule = Rule { words: rest };
        let mark = mark_of(rule.head());
        if body_holds(rule, values) {
            held[mark] = true;
        }
        let size = table::rule_size(rest);
        rest = &rest[size..];
    }
    held
}

// Whether a literal is in the set while no body for it holds, or the other way round.
fn literal_fails(values: &[u8], held: &[bool], code: usize) -> bool
    ensures { result ≡ differ (set_of values.now code) (marked_head held.now code) }
{
    values::has(values, code) != is_held(held, code)
}

// The lowest literal whose formula fails.
pub(crate) fn first_failing(values: &[u8], held: &[bool]) -> Option<usize>
    requires { length values.now ≤ 1024 }
    ensures { place_of result ≡ first (λ c. differ (set_of values.now c) (marked_head held.now c))
        0 (range 0 (2 * length values.now)) }
{
    for code in 0..2 * values.len() {
        if literal_fails(values, held, code) {
            return Some(code);
        }
    }
    None
}

// The head word of false, if the formula of false fails.
pub(crate) fn false_failing(held: &[bool]) -> Option<usize>
    ensures { place_of result ≡ failing_false (marked_head held.now) }
{
    if is_held(held, 2048) {
        Some(65535)
    } else {
        None
    }
}
