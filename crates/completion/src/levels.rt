// A level for each literal code, and refusal 13: each literal head is to stand above the plain parts of its rule.
ghost use Rattle.std.specs.Prelude.{◌≡◌, not, ◌≤◌, length};
ghost use Rattle.basics.specs.Search.{all, first};
ghost use Rattle.basics.specs.Replies.{refusal};
ghost use Rattle.basics.specs.Refusals.{place_of, tested_of, Numbered};
ghost use Rattle.logic_programs.specs.Words.{rule_at, rule_size, rules_of};
ghost use Rattle.rule_tables.specs.Internal.{Sound};
ghost use Rattle.completion_theory.specs.LevelLists.{is_below, stands_above, wrong_count, bad_levels};

use basics::{Reason, Refusal};
use rule_tables::table::{self, Rule};

// Whether the level of each part is below another level.
fn parts_below(parts: &[u16], levels: &[u16], top: usize) -> bool
    ensures { result ≡ all (is_below levels.now top) parts.now }
{
    parts
        .iter()
        .all(|part| table::word(levels, usize::from(*part)) < top)
}

// Whether the head of a rule is false, or stands above the rule's plain parts.
fn stands_above(rule: Rule, levels: &[u16]) -> bool
    ensures { result ≡ stands_above levels.now (rule_at rule.entry.words.now) }
{
    let head = rule.head();
    head == 65535 || parts_below(rule.plain(), levels, table::word(levels, head))
}

// The lowest rule whose head does not stand above its plain parts.
fn first_not_above(table: &[u16], levels: &[u16]) -> Option<usize>
    requires { Sound table.now }
    ensures { place_of result ≡ first (λ r. not (stands_above levels.now r)) 0 (rules_of table.now) }
{
    let mut rest = table;
    let mut before = 0;
    while !rest.is_empty() {
        let rule = Rule { words: rest };
        if !stands_above(rule, levels) {
            return Some(before);
        }
        let size = table::rule_size(rest);
        rest = &rest[size..];
        before += 1;
    }
    None
}

// The place 65535, if there are not two levels for each atom; else the lowest rule that they do not fit.
fn bad_levels(table: &[u16], levels: &[u16], atoms: usize) -> Option<usize>
    requires few_atoms { atoms ≤ 1024 }
    requires sound { Sound table.now }
    ensures { place_of result ≡ bad_levels atoms table.now levels.now }
{
    if levels.len() != 2 * atoms {
        return Some(65535);
    }
    first_not_above(table, levels)
}

// Refusal 13: the count of the levels, or the lowest rule that they do not fit.
pub(crate) fn check_levels(table: &[u16], levels: &[u16], atoms: usize) -> Result<(), Refusal>
    requires few_atoms { atoms ≤ 1024 }
    requires sound { Sound table.now }
    ensures answers { tested_of result ≡ refusal 13 (bad_levels atoms table.now levels.now) }
    ensures numbered { Numbered result }
{
    match bad_levels(table, levels, atoms) {
        Some(place) => Err(Refusal {
            reason: Reason::BadLevels,
            place,
        }),
        None => Ok(()),
    }
}
