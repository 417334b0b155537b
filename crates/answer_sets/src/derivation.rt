// The least set closed under the reduct's rules with literal heads, by rounds from 2,048 clear marks.
ghost use Rattle.std.specs.Prelude.{◌≡◌, ◌≤◌, length, take, replicate};
ghost use Rattle.std.specs.Result.{IfOk};
ghost use Rattle.std.proofs.Math.Option.{none};
ghost use Rattle.basics.specs.Search.{first};
ghost use Rattle.logic_programs.specs.Words.{rules_of, bad_rule};
ghost use Rattle.literal_sets.specs.Marks.{marked};
ghost use Rattle.answer_set_theory.specs.Verdicts.{is_broken};
ghost use Rattle.answer_set_theory.specs.Derived.{Derived};
ghost use Rattle.answer_sets.specs.Internal.{EachWaiting, Made, Roomy, broken_by};

use crate::pending::{self, Broken};
use literal_sets::marks;
use rule_tables::table::Rule;

// The marks after a round, and how many rules still wait.
#[derive(Clone, Copy)]
struct Outcome {
    marks: [u64; 32],
    left: usize,
}

// One round over the rules that wait: the old marks are read, and the heads of rules whose bodies hold in them are added. A rule leaves
// when its head is marked; the starts of the others move to the front.
fn round(
    table: &[u16],
    old: [u64; 32],
    starts: &mut [u32],
    waits: &mut [u16],
    count: usize,
) -> Outcome
    requires starts_room { count ≤ length starts.old }
    requires waits_room { count ≤ length waits.old }
    requires waiting { EachWaiting table.now starts.old waits.old count }
    ensures no_more { result.left ≤ count }
    ensures still_waiting { EachWaiting table.now starts.new waits.new result.left }
    ensures made { Made table.now (marked old) (take count starts.old) result.marks
        (take result.left starts.new) }
{
    let mut new = old;
    let mut left: usize = 0;
    for i in 0..count {
        let start = starts[i];
        let rule = Rule {
            words: &table[start as usize..],
        };
        let wait = pending::waits_for(rule, waits[i], &old);
        if wait == 65535 {
            let head = rule.head();
            new[head / 64] |= 1 << (head % 64);
        } else {
            starts[left] = start;
            waits[left] = wait;
            left += 1;
        }
    }
    Outcome { marks: new, left }
}

// The lowest broken rule, if any; else, by rounds from clear marks until one adds nothing, the marks of the least closed set. One more
// round than two for each atom are always enough. The two arrays have room for every rule.
fn derive_in(
    table: &[u16],
    x: &[u64],
    atoms: usize,
    starts: &mut [u32],
    waits: &mut [u16],
) -> Result<[u64; 32], Broken>
    requires few_atoms { atoms ≤ 1024 }
    requires fitting { bad_rule atoms table.now ≡ none }
    requires roomy { Roomy table.now (length starts.old) }
    requires none_waits { waits.old ≡ replicate (length starts.old) 65535 }
    ensures lowest_broken { broken_by result ≡ first (is_broken (marked x.now)) 0 (rules_of table.now) }
    ensures derived { IfOk result (λ least. Derived atoms (rules_of table.now) (marked x.now) least) }
{
    let limit = 2 * atoms + 1;
    let mut marks = marks::clear();
    let mut count = pending::scan(table, x, starts)?;
    for k in 0..limit {
        let next = round(table, marks, starts, waits, count);
        if next.marks == marks {
            return Ok(marks);
        }
        marks = next.marks;
        count = next.left;
    }
    Ok(marks)
}

// The lowest broken rule or the least closed set. A rule takes three words at least, so a short table needs little room; most recipes of
// an editor are short.
pub(crate) fn derive(table: &[u16], x: &[u64], atoms: usize) -> Result<[u64; 32], Broken>
    requires few_atoms { atoms ≤ 1024 }
    requires fitting { bad_rule atoms table.now ≡ none }
    ensures lowest_broken { broken_by result ≡ first (is_broken (marked x.now)) 0 (rules_of table.now) }
    ensures derived { IfOk result (λ least. Derived atoms (rules_of table.now) (marked x.now) least) }
{
    if table.len() <= 768 {
        let mut starts = [0; 256];
        let mut waits = [65535; 256];
        return derive_in(table, x, atoms, &mut starts, &mut waits);
    }
    let mut starts = [0; 4096];
    let mut waits = [65535; 4096];
    derive_in(table, x, atoms, &mut starts, &mut waits)
}
