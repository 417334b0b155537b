// The lists of a law record, read safely, and what differs by a law's kind.
ghost use Rattle.std.specs.Prelude.{◌≡◌, ◌+◌, ◌≤◌, length};
ghost use Rattle.action_language.specs.Laws.{if_list};
ghost use Rattle.rule_words.specs.Internal.{by_kind, plain_list};

use action_language::{Kind, Law};

// The number for a law, of one for static laws and one for dynamic laws.
pub fn by_kind(law: Law, for_static: usize, for_dynamic: usize) -> usize
    ensures { result ≡ by_kind for_static for_dynamic law.kind }
{
    match law.kind {
        Kind::Static => for_static,
        Kind::Dynamic => for_dynamic,
    }
}

// How many negated parts each rule of a law has: one for each literal of its if-list, which has no more than it has places.
pub(crate) fn negated_count(law: Law) -> usize
    ensures { (result ≡ length (if_list law)) × (result ≤ 6) }
{
    usize::from(law.if_count).min(law.if_codes.len())
}

// How many plain parts: one for each literal of its after-list. A static law's after-list is not read.
pub(crate) fn plain_count(law: Law) -> usize
    ensures { (result ≡ length (plain_list law)) × (result ≤ 6) }
{
    by_kind(law, 0, usize::from(law.after_count)).min(law.after_codes.len())
}

// How many words each rule of a law takes.
pub fn rule_size(law: Law) -> usize
    ensures { (result ≡ 3 + length (if_list law) + length (plain_list law)) × (result ≤ 15) }
{
    3 + negated_count(law) + plain_count(law)
}
