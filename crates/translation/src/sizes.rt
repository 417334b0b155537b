// How many atoms, rules and words a translation has, counted before anything is written.
ghost use Rattle.std.specs.Prelude.{◌≡◌, ◌≤◌, length};
ghost use Rattle.action_language.specs.Atoms.{atom_count};
ghost use Rattle.translation_rules.specs.Translated.{rules_for, table_for};

use crate::Written;
use action_language::{Description, Law};
use rule_words::lists::{by_kind, rule_size};

// The rules of the laws that are counted, a static law's for each time from 0 to the horizon and a dynamic law's for each step,
// and two rules of four words for each atom that is chosen.
pub(crate) fn sizes_needed(d: Description, laws: &[Law]) -> Written
    requires limits { (d.fluents ≤ 24) × (d.actions ≤ 8) × (d.laws ≤ 64) × (d.horizon ≤ 30) }
    requires lent { d.laws ≤ length laws.now }
    ensures { (result.atoms ≡ atom_count d.fluents d.actions d.horizon) × (result.rules ≡ length (rules_for d laws.now))
        × (result.words ≡ length (table_for d laws.now)) }
{
    let chosen = d.fluents + d.horizon * d.actions;
    let mut rules = 2 * chosen;
    let mut words = 8 * chosen;
    for law in &laws[..d.laws] {
        let times = by_kind(*law, d.horizon + 1, d.horizon);
        rules += times;
        words += times * rule_size(*law);
    }
    let atoms = record_acceptance::atom_count(d.fluents, d.actions, d.horizon);
    Written {
        atoms,
        rules,
        words,
    }
}
