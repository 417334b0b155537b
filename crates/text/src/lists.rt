// Lists of literals between single commas, read item by item.
ghost use Rattle.std.specs.Prelude.{◌≡◌};
ghost use Rattle.basics.specs.Refusals.{place_of};
ghost use Rattle.text_forms.specs.Names.{literal};
ghost use Rattle.text.specs.Internal.{spelled, item_at, next_at};

use crate::{bytes, names};
use text_forms::Names;

// An item: its literal's code, if it is one of the allowed sort, and where the next item begins (behind the end: there is none).
#[derive(Clone, Copy, Debug, PartialEq, Eq)]
pub struct Item {
    pub code: Option<usize>,
    pub next: usize,
}

// The item that begins at a place of a list; behind the end it is empty, which is no literal.
pub fn next_item(
    list: &[u8],
    from: usize,
    text: &[u8],
    names: &Names,
    low: usize,
    high: usize,
) -> Item
    ensures code { place_of result.code ≡ literal (spelled text.now names.now) low high (item_at list.now from) }
    ensures next { result.next ≡ next_at list.now from }
{
    let rest = bytes::rest_from(list, from);
    let size = bytes::find(rest, b',').unwrap_or(rest.len());
    Item {
        code: names::literal(text, names, &rest[..size], low, high),
        next: from.min(list.len()) + size + 1,
    }
}
