// Bytes: where one stands, and a part of a text by its place.
ghost use Rattle.std.specs.Prelude.{◌≡◌, ◌<◌, IfSome, eqb, length, take, drop};
ghost use Rattle.basics.specs.Search.{first};
ghost use Rattle.basics.specs.Refusals.{place_of};

// The place of the first byte b.
pub(crate) fn find(bytes: &[u8], b: u8) -> Option<usize>
    ensures place { place_of result ≡ first (eqb b) 0 bytes.now }
    ensures inside { IfSome result (λ i. i < length bytes.now) }
{
    bytes.iter().position(|x| b == *x)
}

// A text from a place on; behind its end there is nothing.
pub(crate) fn rest_from(text: &[u8], at: usize) -> &[u8]
    ensures { result.now ≡ drop at text.now }
{
    &text[at.min(text.len())..]
}

// The part of a text at a place, as far as the text goes.
pub fn part(text: &[u8], start: usize, length: usize) -> &[u8]
    ensures { result.now ≡ take length (drop start text.now) }
{
    let rest = rest_from(text, start);
    &rest[..length.min(rest.len())]
}
