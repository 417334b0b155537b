// The answer-set engine: whether a set of literals is an answer set of a rule table. It knows nothing of what atoms mean.
#![tactic(auto)]

mod derivation;
mod faults;
mod pending;
mod values;

ghost use Rattle.std.specs.Prelude.{◌≡◌};
ghost use Rattle.basics.specs.Refusals.{Numbered};
ghost use Rattle.answer_set_theory.specs.Answers.{answer};
ghost use Rattle.answer_sets.specs.Answers.{reply_of};
ghost use Rattle.answer_set_theory.specs.Demand2.{Demand2};

use basics::Refusal;
use rule_tables::acceptance;

// The first verdict that holds, with the atom, rule or literal code that it names.
#[derive(Clone, Copy, Debug, PartialEq, Eq)]
pub enum Verdict {
    Clash(usize),
    Broken(usize),
    Unfounded(usize),
    Passes,
}

// The answer to value bytes, one an atom, and the words of a rule table: a refusal, or the verdict. Nothing that is lent changes.
pub fn check_set(values: &[u8], table: &[u16]) -> Result<Verdict, Refusal>
    ensures answers { reply_of result ≡ answer values.now table.now }
    ensures numbered { Numbered result }
    ensures demand_2 { Demand2 values.now table.now (reply_of result) }
{
    acceptance::test(values, table)?;
    Ok(faults::judge(values, table))
}
