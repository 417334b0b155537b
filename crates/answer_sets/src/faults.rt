// The verdict on an accepted table and accepted values: the first fault that there is, and the lowest of its kind.
ghost use Rattle.std.specs.Prelude.{◌≡◌, ◌≤◌, length};
ghost use Rattle.std.proofs.Math.Option.{none};
ghost use Rattle.logic_programs.specs.Literals.{set_of, bad_value};
ghost use Rattle.answer_set_theory.specs.Verdicts.{verdict};
ghost use Rattle.logic_programs.specs.Words.{rules_of, bad_rule};
ghost use Rattle.answer_sets.specs.Answers.{verdict_of};

use crate::{Verdict, derivation, values};

// The first verdict that holds.
pub(crate) fn judge(values: &[u8], table: &[u16]) -> Verdict
    requires few_values { length values.now ≤ 1024 }
    requires values_fit { bad_value values.now ≡ none }
    requires rules_fit { bad_rule (length values.now) table.now ≡ none }
    ensures { verdict_of result ≡ verdict (length values.now) (rules_of table.now) (set_of values.now) }
{
    let atoms = values.len();
    if let Some(atom) = set_faults::first_clash(values) {
        return Verdict::Clash(atom);
    }
    let x = values::marks_of(values);
    let least = match derivation::derive(table, &x, atoms) {
        Ok(least) => least,
        Err(broken) => return Verdict::Broken(broken.rule),
    };
    if let Some(code) = set_faults::first_unfounded(&x, &least, 2 * atoms) {
        return Verdict::Unfounded(code);
    }
    Verdict::Passes
}
