// Names and literals. A name that was declared is kept as its place in the caller's text.
ghost use Rattle.std.specs.Prelude.{◌≡◌, ◌<◌, ◌≤◌, IfSome};
ghost use Rattle.basics.specs.Refusals.{place_of};
ghost use Rattle.text_forms.specs.Names.{is_new, declared_at, in_sort, literal};
ghost use Rattle.text.specs.Internal.{spelled};

use crate::bytes;
use spelling;
use text_forms::Names;

// The place of a name among those declared, in any mix of capitals; no bytes are no name.
fn find_name(text: &[u8], names: &Names, name: &[u8]) -> Option<usize>
    ensures place { place_of result ≡ declared_at (spelled text.now names.now) name.now }
    ensures few { IfSome result (λ i. i < 32) }
{
    if name.is_empty() {
        return None;
    }
    names.places.iter().take(names.count).position(|place| {
        let declared = bytes::part(text, place.start, place.length);
        spelling::same_name(name, declared)
    })
}

// Whether some bytes are a name that is not declared yet.
pub fn is_new(text: &[u8], names: &Names, name: &[u8]) -> bool
    ensures { result ≡ is_new (spelled text.now names.now) name.now }
{
    spelling::is_name(name) && find_name(text, names, name).is_none()
}

// The code of a name's literal if the name is of the allowed sort: from place low up to, not including, place high.
fn in_sort(place: Option<usize>, low: usize, high: usize, sign: usize) -> Option<usize>
    requires { IfSome place (λ i. i < 32) × (sign ≤ 1) }
    ensures { place_of result ≡ in_sort low high sign (place_of place) }
{
    let i = place?;
    (low <= i && i < high).then_some(2 * i + sign)
}

// The code of a literal of the allowed sort: a name, or a hyphen and a name.
pub fn literal(text: &[u8], names: &Names, item: &[u8], low: usize, high: usize) -> Option<usize>
    ensures { place_of result ≡ literal (spelled text.now names.now) low high item.now }
{
    match item.strip_prefix(b"-") {
        Some(name) => in_sort(find_name(text, names, name), low, high, 1),
        None => in_sort(find_name(text, names, item), low, high, 0),
    }
}
