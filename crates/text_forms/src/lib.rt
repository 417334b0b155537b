// What lines, keys, names, literals and lists are, and where they stand in a text: no function.
#![tactic(auto)]

// The key of a line, in the order of the keys' numbers, from 0 on.
#[derive(Clone, Copy, Debug, PartialEq, Eq)]
pub enum Key {
    Horizon,
    Fluent,
    Action,
    Static,
    Dynamic,
    If,
    After,
    State,
    Act,
    End,
    Default,
    Inertial,
    Causes,
    By,
    Nonexecutable,
}

// A line: its key (none where the line or the key is lacking), where its value begins and ends, and where the next line begins.
// Where the line is lacking, all places are at the text's end.
#[derive(Clone, Copy, Debug, PartialEq, Eq)]
pub struct LineAt {
    pub key: Option<Key>,
    pub from: usize,
    pub to: usize,
    pub next: usize,
}

// Where a declared name begins and how long it is.
#[derive(Clone, Copy, Debug, PartialEq, Eq)]
pub struct Name {
    pub start: usize,
    pub length: usize,
}

// The declared names by their places, fluents first, and how many there are.
#[derive(Clone, Copy, Debug, PartialEq, Eq)]
pub struct Names {
    pub places: [Name; 32],
    pub count: usize,
}
