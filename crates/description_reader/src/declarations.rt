// What a description's text declares.
ghost use Rattle.std.specs.Prelude.{◌+◌, ◌≤◌};

use text_forms::Names;

// What a text declares: the horizon, how many of the names are fluents, the names, where each stands in the text, and how many lines
// were read.
#[derive(Clone, Copy, Debug, PartialEq, Eq)]
pub struct Declarations {
    pub lines: usize,
    pub horizon: usize,
    pub fluents: usize,
    pub names: Names,
    pub ghost time: { horizon ≤ 30 },
    pub ghost few: { fluents ≤ 24 },
    pub ghost declared: { fluents ≤ names.count },
    pub ghost actions: { names.count ≤ fluents + 8 },
}
