// The rules that a derivation still has to look at: the words at which they start and, beside each, a literal that its body waits
// for, or 65535 if none is known.
ghost use Rattle.std.specs.Prelude.{◌≡◌, not, ◌&&◌, ◌≤◌, ltb, length};
ghost use Rattle.std.specs.Result.{IfOk};
ghost use Rattle.basics.specs.Search.{first};
ghost use Rattle.logic_programs.specs.Words.{rules_of};
ghost use Rattle.literal_sets.specs.Marks.{marked};
ghost use Rattle.rule_tables.specs.Internal.{Sound};
ghost use Rattle.answer_set_theory.specs.Verdicts.{is_broken};
ghost use Rattle.answer_sets.specs.Internal.{outside, waits_for, Begun, Roomy, broken_by};

use literal_sets::marks;
use rule_tables::table::{self, Rule};

// Whether a literal that a rule waits for is still not marked.
fn still_waits(wait: u16, marks: &[u64]) -> bool
    ensures { result ≡ (ltb wait 2048 && not (marked marks.now wait)) }
{
    wait < 2048 && !marks::has(marks, usize::from(wait))
}

// The first part that is not marked, or 65535.
fn first_outside(parts: &[u16], marks: &[u64]) -> u16
    ensures { result ≡ outside (marked marks.now) parts.now }
{
    for part in parts {
        if !marks::has(marks, usize::from(*part)) {
            return *part;
        }
    }
    65535
}

// What a rule waits for now, or 65535 if its head is marked or its body holds. While what it waited for is not marked
// no more of it is read.
pub(crate) fn waits_for(rule: Rule, wait: u16, marks: &[u64]) -> u16
    ensures { result ≡ waits_for rule.entry.words.now wait (marked marks.now) }
{
    if still_waits(wait, marks) {
        return wait;
    }
    if marks::has(marks, rule.head()) {
        return 65535;
    }
    first_outside(rule.plain(), marks)
}

// The lowest rule that a set breaks.
#[derive(Clone, Copy)]
pub(crate) struct Broken {
    pub(crate) rule: usize,
}

// Makes the reduct by x once: the starts of the rules that it keeps whose bodies hold in x, and how many they are. Where no rule is
// broken, x is closed and the least closed set part of it, so no round ever reaches the body of another rule.
pub(crate) fn scan(table: &[u16], x: &[u64], starts: &mut [u32]) -> Result<usize, Broken>
    requires sound { Sound table.now }
    requires roomy { Roomy table.now (length starts.old) }
    ensures lowest_broken { broken_by result ≡ first (is_broken (marked x.now)) 0 (rules_of table.now) }
    ensures begun { IfOk result (λ count. Begun table.now (marked x.now) starts.new count) }
{
    let mut rest = table;
    let mut at: usize = 0;
    let mut rule: usize = 0;
    let mut count: usize = 0;
    while !rest.is_empty() {
        if table::rule_applies(rest, x, x) {
            if !table::head_in(usize::from(rest[0]), x) {
                return Err(Broken { rule });
            }
            starts[count] = at as u32;
            count += 1;
        }
        let size = table::rule_size(rest);
        rest = &rest[size..];
        at += size;
        rule += 1;
    }
    Ok(count)
}
