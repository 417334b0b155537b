// Lines: key=value, with the key and the places of the value and of the next line.
ghost use Rattle.std.specs.Prelude.{◌≡◌, [], ◌≤◌, length};
ghost use Rattle.text_forms.specs.Lines.{key_number};
ghost use Rattle.text_forms.specs.Keys.{key_by};
ghost use Rattle.text_forms.specs.Places.{line_size, start_of_line, no_line, line_at, value_of_line, start_of_value, LiesAt};

use crate::bytes;
use spelling;
use text_forms::{Key, LineAt};

// The fifteen keys in the order of their numbers.
const KEYS: [(&str, Key); 15] = [
    ("horizon", Key::Horizon),
    ("fluent", Key::Fluent),
    ("action", Key::Action),
    ("static", Key::Static),
    ("dynamic", Key::Dynamic),
    ("if", Key::If),
    ("after", Key::After),
    ("state", Key::State),
    ("act", Key::Act),
    ("end", Key::End),
    ("default", Key::Default),
    ("inertial", Key::Inertial),
    ("causes", Key::Causes),
    ("by", Key::By),
    ("nonexecutable", Key::Nonexecutable),
];

// The key that some bytes are; keys are in lower case, so nothing is lowered.
fn key_of(front: &[u8]) -> Option<Key>
    ensures { result ≡ key_by (key_number front.now) }
{
    for (bytes, key) in KEYS {
        if spelling::same(front, bytes.as_bytes()) {
            return Some(key);
        }
    }
    None
}

// No line.
fn no_line(at: usize) -> LineAt
    ensures { result ≡ no_line at }
{
    LineAt {
        key: None,
        from: at,
        to: at,
        next: at,
    }
}

// The line that begins at a place; there is none where its ending byte or its equals sign is lacking, as behind the end of the text.
pub fn line_at(text: &[u8], at: usize) -> LineAt
    ensures { result ≡ line_at text.now at }
{
    let rest = bytes::rest_from(text, at);
    let Some(size) = bytes::find(rest, b'\n') else {
        return no_line(text.len());
    };
    let line = &rest[..size];
    let Some(equals) = bytes::find(line, b'=') else {
        return no_line(text.len());
    };
    LineAt {
        key: key_of(&line[..equals]),
        from: at + equals + 1,
        to: at + size,
        next: at + size + 1,
    }
}

// How many bytes the first line takes, its ending byte among them.
fn line_size(rest: &[u8]) -> usize
    ensures { (result ≡ line_size rest.now) × (result ≤ length rest.now) }
{
    match bytes::find(rest, b'\n') {
        Some(end) => end + 1,
        None => rest.len(),
    }
}

// Where line n begins; the first is line 0.
fn line_start(text: &[u8], n: usize) -> usize
    ensures { (result ≡ start_of_line n text.now) × (result ≤ length text.now) }
{
    let mut at: usize = 0;
    for _ in 0..n {
        at += line_size(&text[at..]);
    }
    at
}

// The value of line n, whatever its key: the part of the text behind its equals sign; nothing, at the text's end, where there is no line n.
pub fn value_of_line(text: &[u8], n: usize) -> &[u8]
    ensures answers { result.now ≡ value_of_line n text.now }
    ensures lies { LiesAt (start_of_value n text.now) text.entry result }
{
    let line = line_at(text, line_start(text, n));
    &text[line.from..line.to]
}

// No part of a text: no bytes, at its start.
pub fn no_part(text: &[u8]) -> &[u8]
    ensures { (result.now ≡ []) × LiesAt 0 text.entry result }
{
    &text[..0]
}
