// The law record in which every count and place is 0, and 64 of them: what a program lends to the description reader at first.
#![tactic(auto)]

ghost use Rattle.std.specs.Prelude.{◌≡◌, length};
ghost use Rattle.action_language.specs.Laws.{no_law};
ghost use Rattle.law_runs.specs.Runs.{no_laws};

use action_language::{Head, Kind, Law};

// The record read where the run has none.
pub fn no_law() -> Law
    ensures { result ≡ no_law }
{
    Law {
        kind: Kind::Static,
        head: Head::Lit(0),
        if_count: 0,
        if_codes: [0; 6],
        after_count: 0,
        after_codes: [0; 6],
    }
}

// Room for the laws of any description.
#[tactic(auto, unfolding(crate::specs::Runs::no_laws))]
pub fn no_laws() -> [Law; 64]
    ensures answers { result ≡ no_laws }
    ensures bounded { length result ≡ 64 }
{
    [no_law(); 64]
}
