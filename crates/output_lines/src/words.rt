// The words that are printed.
ghost use Rattle.std.specs.Prelude.{◌≡◌, ◌≤◌, length};
ghost use Rattle.output_lines.specs.Internal.{word_bytes};

// A word: the keys of the lines in their order, and behind them the words that stand for values.
#[derive(Clone, Copy)]
pub(crate) enum Word {
    Horizon,
    Atoms,
    Rules,
    Words,
    Answer,
    At,
    Causal,
    Time,
    Item,
    Refused,
    Place,
    Passes,
    Missing,
    Clash,
    Broken,
    Unfounded,
    None,
    Path,
    Contradicted,
    Uncaused,
}

impl Word {
    // The word as it is spelled.
    pub(crate) fn bytes(self) -> &'static [u8]
        ensures value { result.now ≡ word_bytes self }
        ensures upper_bound { length result.now ≤ 12 }
    {
        match self {
            Word::Horizon => b"horizon",
            Word::Atoms => b"atoms",
            Word::Rules => b"rules",
            Word::Words => b"words",
            Word::Answer => b"answer",
            Word::At => b"at",
            Word::Causal => b"causal",
            Word::Time => b"time",
            Word::Item => b"item",
            Word::Refused => b"refused",
            Word::Place => b"place",
            Word::Passes => b"passes",
            Word::Missing => b"missing",
            Word::Clash => b"clash",
            Word::Broken => b"broken",
            Word::Unfounded => b"unfounded",
            Word::None => b"none",
            Word::Path => b"path",
            Word::Contradicted => b"contradicted",
            Word::Uncaused => b"uncaused",
        }
    }
}
