// Judging by the completion formulas: whether a set of literals satisfies the literal completion of a rule table. No derivation is
// made: one pass through the table marks the heads that have a body that holds, and one through the literals compares them with
// the set. It knows nothing of what atoms mean.
#![tactic(auto)]

mod heads;
mod levels;

ghost use Rattle.std.specs.Prelude.{◌≡◌, ◌≤◌, length};
ghost use Rattle.std.proofs.Math.Option.{none};
ghost use Rattle.basics.specs.Refusals.{Numbered};
ghost use Rattle.logic_programs.specs.Literals.{set_of};
ghost use Rattle.logic_programs.specs.Words.{rules_of, bad_rule};
ghost use Rattle.completion_theory.specs.Findings.{judged_by_formulas, formula_finding};
ghost use Rattle.completion_theory.specs.Answers.{answer, answer_by_levels};
ghost use Rattle.completion.specs.Answers.{finding_of, reply_of};
ghost use Rattle.completion_theory.specs.Meaning.{SaysFormulas, SaysLevels};

use basics::Refusal;
use literal_sets::values::{self, Fault};
use rule_tables::acceptance;

// Missing or clash with the lowest atom that has no value or both; or the head word of the first formula that fails, which is a literal's
// code, or 65535 for false, which comes last.
#[derive(Clone, Copy, Debug, PartialEq, Eq)]
pub enum Finding {
    Missing(usize),
    Clash(usize),
    Fails(usize),
    Holds,
}

// What the formulas say of accepted values and an accepted table.
fn judge_formulas(values: &[u8], table: &[u16]) -> Finding
    requires few_values { length values.now ≤ 1024 }
    requires rules_fit { bad_rule (length values.now) table.now ≡ none }
    ensures { finding_of result ≡ judged_by_formulas (length values.now) (rules_of table.now) (set_of values.now) }
{
    let held = heads::held_heads(table, values);
    if let Some(word) = heads::first_failing(values, &held) {
        return Finding::Fails(word);
    }
    if let Some(word) = heads::false_failing(&held) {
        return Finding::Fails(word);
    }
    Finding::Holds
}

// What is found of accepted values and an accepted table.
fn judge(values: &[u8], table: &[u16]) -> Finding
    requires few_values { length values.now ≤ 1024 }
    requires rules_fit { bad_rule (length values.now) table.now ≡ none }
    ensures { finding_of result ≡ formula_finding values.now table.now }
{
    match values::first_fault(values) {
        Some(Fault::Missing(atom)) => Finding::Missing(atom),
        Some(Fault::Clash(atom)) => Finding::Clash(atom),
        None => judge_formulas(values, table),
    }
}

// The answer to value bytes, one an atom, and the words of a rule table: a refusal, or what is found. Nothing that is lent changes.
pub fn check_completion(values: &[u8], table: &[u16]) -> Result<Finding, Refusal>
    ensures answers { reply_of result ≡ answer values.now table.now }
    ensures numbered { Numbered result }
    ensures by_formulas { SaysFormulas values.now table.now (reply_of result) }
{
    acceptance::test(values, table)?;
    Ok(judge(values, table))
}

// The same with a level for each literal code, which show that the table is tight: then it holds exactly if the engine passes.
pub fn check_by_levels(values: &[u8], table: &[u16], levels: &[u16]) -> Result<Finding, Refusal>
    ensures answers { reply_of result ≡ answer_by_levels values.now table.now levels.now }
    ensures numbered { Numbered result }
    ensures by_levels { SaysLevels values.now table.now levels.now (reply_of result) }
{
    acceptance::test(values, table)?;
    levels::check_levels(table, levels, values.len())?;
    Ok(judge(values, table))
}
