// The codes of a law's list, gathered item by item.
ghost use Rattle.std.specs.Prelude.{◌≡◌, ◌≤◌, take};
ghost use Rattle.action_language.specs.Laws.{padded};

use basics::Reason;
use line_values::law_forms::Places;

// The places of a list's first items, 0 behind them.
#[derive(Clone, Copy)]
pub(crate) struct Codes {
    pub places: Places,
    ghost few: { places.count ≤ 6 },
    ghost padding: { places.codes ≡ padded (take places.count places.codes) },
}

impl Codes {
    ghost use Rattle.std.specs.Prelude.{[]};
    ghost use Rattle.basics.specs.Refusals.{place_of};
    ghost use Rattle.text.specs.Internal.{CodeFits};
    ghost use Rattle.description_reader.specs.Internal.{codes_in, listed_of, one_more, NumberedReason};

    // No codes yet.
    pub fn none() -> Codes
        ensures { codes_in result ≡ [] }
    {
        Codes {
            places: Places {
                count: 0,
                codes: [0; 6],
            },
        }
    }

    // One more item: a seventh has no place, and each is to be a literal of the allowed sort.
    pub fn push(&mut self, code: Option<usize>) -> Result<(), Reason>
        requires { CodeFits (place_of code) }
        ensures answers { listed_of result self.new ≡ one_more (codes_in self.old) (place_of code) }
        ensures numbered { NumberedReason result }
    {
        if 6 <= self.places.count {
            return Err(Reason::NoRoom);
        }
        let code = code.ok_or(Reason::BadLiteral)?;
        self.places.codes[self.places.count as usize] = code as u8;
        self.places.count += 1;
        Ok(())
    }
}
