// How names are spelled: which bytes they may have, which runs of bytes are names, and which of them are the same name.
#![tactic(auto)]

ghost use Rattle.std.specs.Prelude.{◌≡◌};
ghost use Rattle.basics.specs.Search.{all};
ghost use Rattle.spelling.specs.Letters.{is_digit, is_name_byte, same};
ghost use Rattle.spelling.specs.Spelling.{false_bytes, same_name, is_name};

// Whether two runs have the same bytes.
pub fn same(a: &[u8], b: &[u8]) -> bool
    ensures { result ≡ same a.now b.now }
{
    a == b
}

// Whether two runs have the same bytes after lowering. Most are the same as they are up to where two names differ, so that is
// asked first.
pub fn same_name(a: &[u8], b: &[u8]) -> bool
    ensures { result ≡ same_name a.now b.now }
{
    if a.len() != b.len() {
        return false;
    }
    for i in 0..a.len() {
        if a[i] != b[i] {
            return a[i..].eq_ignore_ascii_case(&b[i..]);
        }
    }
    true
}

// Whether a byte is a digit, 0 to 9.
pub fn is_digit(b: u8) -> bool
    ensures { result ≡ is_digit b }
{
    b.is_ascii_digit()
}

// `false`, in any mix of capitals.
pub fn is_false(name: &[u8]) -> bool
    ensures { result ≡ same_name name.now false_bytes }
{
    same_name(name, b"false")
}

// Letters, digits and underscores alone.
fn are_name_bytes(bytes: &[u8]) -> bool
    ensures { result ≡ all is_name_byte bytes.now }
{
    bytes
        .iter()
        .all(|b| b.is_ascii_alphanumeric() || *b == b'_')
}

// A letter, then up to 15 letters, digits or underscores; `false` is no name.
#[tactic(auto, unfolding(crate::specs::Spelling::is_name))]
pub fn is_name(name: &[u8]) -> bool
    ensures { result ≡ is_name name.now }
{
    let [first, ..] = name else {
        return false;
    };
    first.is_ascii_alphabetic() && name.len() <= 16 && are_name_bytes(name) && !is_false(name)
}
