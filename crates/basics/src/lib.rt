// Words that the crates above share: what refuses a call.
#![tactic(auto)]

ghost use Rattle.std.specs.Prelude.{◌≡◌};
ghost use Rattle.basics.specs.Refusals.{number_of};

// Why a call is refused, in the order of the refusals' numbers, from 1 on; last, what a caller's own test refuses, by its number.
#[derive(Clone, Copy, Debug, PartialEq, Eq)]
pub enum Reason {
    LongText,
    WrongLine,
    BadHorizon,
    BadName,
    NoRoom,
    BadLiteral,
    MoreBytes,
    BadRecord,
    ShortTable,
    WrongCount,
    BadValue,
    BadRule,
    BadLevels,
    Own(u8),
}

impl From<Reason> for u8 {
    ghost from_gives = { λ reason number. number ≡ number_of reason };

    fn from(reason: Reason) -> u8 {
        match reason {
            Reason::LongText => 1,
            Reason::WrongLine => 2,
            Reason::BadHorizon => 3,
            Reason::BadName => 4,
            Reason::NoRoom => 5,
            Reason::BadLiteral => 6,
            Reason::MoreBytes => 7,
            Reason::BadRecord => 8,
            Reason::ShortTable => 9,
            Reason::WrongCount => 10,
            Reason::BadValue => 11,
            Reason::BadRule => 12,
            Reason::BadLevels => 13,
            Reason::Own(number) => number,
        }
    }
}

// A refused call: why, and the place that the refusal names.
#[derive(Clone, Copy, Debug, PartialEq, Eq)]
pub struct Refusal {
    pub reason: Reason,
    pub place: usize,
}
