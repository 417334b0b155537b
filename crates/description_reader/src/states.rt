// What the description reader knows as it goes.
ghost use Rattle.std.specs.Prelude.{◌≡◌, ◌+◌, ◌≤◌, min, length};
ghost use Rattle.description_reader.specs.Needed.{needed};

use action_language::{Head, Kind, Law};
use text_forms::{Key, Name, Names};

// What is due: of a law that has begun the list that comes next, with what has been read of the law.
#[derive(Clone, Copy)]
pub(crate) enum Due {
    Horizon,
    FirstFluent,
    Fluent,
    Action,
    NewLaw,
    If(Kind, Head),
    After(Law),
    By(Head),
}

// Where the reader is: what is due, nothing behind the end line; the horizon; how many of the names are fluents; the names; the laws, by
// value since no memory is taken while a text is read; how many they are, and how many laws were lent. The law that has begun has its
// place among those lent.
#[derive(Clone, Copy)]
pub(crate) struct ReaderState {
    pub due: Option<Due>,
    pub horizon: usize,
    pub fluents: usize,
    pub names: Names,
    pub laws: [Law; 64],
    pub count: usize,
    pub lent: usize,
    ghost time: { horizon ≤ 30 },
    ghost few: { fluents ≤ 24 },
    ghost declared: { fluents ≤ names.count },
    ghost actions: { names.count ≤ fluents + 8 },
    ghost held: { length laws ≡ 64 },
    ghost room: { count + needed due ≤ min 64 lent },
}

// A line: its text, its key, and where its value stands in the text.
#[derive(Clone, Copy)]
pub(crate) struct Line<'a> {
    pub text: &'a [u8],
    pub key: Key,
    pub place: Name,
}
