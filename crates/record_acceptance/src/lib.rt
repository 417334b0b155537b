// Which records are accepted, and how many atoms an accepted one has.
#![tactic(auto)]

ghost use Rattle.std.specs.Prelude.{◌≡◌, ◌&&◌, ℕ, ◌+◌, ◌*◌, ◌≤◌, length, leb, take};
ghost use Rattle.basics.specs.Refusals.{place_of, tested_of, Numbered};
ghost use Rattle.basics.specs.Replies.{refusal, unless_refused};
ghost use Rattle.action_language.specs.Atoms.{atoms_within};
ghost use Rattle.action_language.specs.Acceptance.{codes_below, head_fits, after_fits, law_fits, bad_law};
ghost use Rattle.action_language.specs.Acceptance.{counts_fit, bad_record, bad_horizon};

use action_language::{Description, Head, Kind, Law};
use basics::{Reason, Refusal};

fn head_fits(head: Head, limit: usize) -> bool
    ensures { (n : ℕ) → limit ≡ 2 * n → result ≡ head_fits n head }
{
    match head {
        Head::Lit(code) => usize::from(code) < limit,
        Head::False => true,
    }
}

// At most 6 codes, each below the limit.
fn list_fits(codes: [u8; 6], count: usize, limit: usize) -> bool
    ensures { result ≡ (leb count 6 && codes_below limit (take count codes)) }
{
    count <= 6 && codes[..count].iter().all(|code| usize::from(*code) < limit)
}

// A static law's after-list and its count are not tested.
fn after_fits(law: Law, limit: usize) -> bool
    ensures { (n m : ℕ) → limit ≡ 2 * (n + m) → result ≡ after_fits n m law.kind law }
{
    match law.kind {
        Kind::Static => true,
        Kind::Dynamic => list_fits(law.after_codes, usize::from(law.after_count), limit),
    }
}

// Whether a law's codes are below 2n, and those of a dynamic law's after-list below 2(n + m).
fn law_fits(law: Law, fluent_codes: usize, all_codes: usize) -> bool
    ensures { (n m : ℕ) → fluent_codes ≡ 2 * n → all_codes ≡ 2 * (n + m) → result ≡ law_fits n m law }
{
    head_fits(law.head, fluent_codes)
        && list_fits(law.if_codes, usize::from(law.if_count), fluent_codes)
        && after_fits(law, all_codes)
}

// The lowest law outside the limits.
fn bad_law(laws: &[Law], n: usize, m: usize) -> Option<usize>
    requires { (n ≤ 24) × (m ≤ 8) }
    ensures { place_of result ≡ bad_law n m 0 laws.now }
{
    let fluent_codes = 2 * n;
    let all_codes = 2 * (n + m);
    laws.iter()
        .position(|law| !law_fits(*law, fluent_codes, all_codes))
}

// 1 to 24 fluents, 0 to 8 actions, at most 64 laws and no more than are lent.
fn counts_fit(d: Description, lent: usize) -> bool
    ensures { result ≡ counts_fit d lent }
{
    (1..=24).contains(&d.fluents) && d.actions <= 8 && d.laws <= 64 && d.laws <= lent
}

// Refusal 8: place 64 for the counts, tested first, else the lowest law outside the limits.
#[tactic(auto, unfolding(action_language::specs::Acceptance::bad_record))]
pub fn check_record(d: Description, laws: &[Law]) -> Result<(), Refusal>
    ensures answers { tested_of result ≡ refusal 8 (bad_record d laws.now (length laws.now)) }
    ensures numbered { Numbered result }
{
    let reason = Reason::BadRecord;
    if !counts_fit(d, laws.len()) {
        return Err(Refusal { reason, place: 64 });
    }
    match bad_law(&laws[..d.laws], d.fluents, d.actions) {
        Some(place) => Err(Refusal { reason, place }),
        None => Ok(()),
    }
}

// Refusal 3, from a record: place 0.
#[tactic(auto, unfolding(action_language::specs::Acceptance::bad_horizon))]
pub fn check_horizon(horizon: usize) -> Result<(), Refusal>
    ensures answers { tested_of result ≡ refusal 3 (bad_horizon horizon) }
    ensures numbered { Numbered result }
{
    if (1..=30).contains(&horizon) {
        Ok(())
    } else {
        Err(Refusal {
            reason: Reason::BadHorizon,
            place: 0,
        })
    }
}

// Both, the record first.
pub fn check(d: Description, laws: &[Law]) -> Result<(), Refusal>
    ensures answers { tested_of result
        ≡ unless_refused (refusal 8 (bad_record d laws.now (length laws.now))) (refusal 3 (bad_horizon d.horizon)) }
    ensures numbered { Numbered result }
{
    check_record(d, laws)?;
    check_horizon(d.horizon)
}

// How many atoms there are, or 0 where a number is past its limit.
#[tactic(auto, unfolding(action_language::specs::Atoms::atoms_within))]
pub fn atom_count(fluents: usize, actions: usize, horizon: usize) -> usize
    ensures { result ≡ atoms_within fluents actions horizon }
{
    if fluents <= 24 && actions <= 8 && horizon <= 30 {
        horizon * (fluents + actions) + fluents
    } else {
        0
    }
}
