// The causal reading by itself, for the benchmark (tests/benchmark): the C library reads the text at each call, and here only
// the reading of the values is made again.
#![tactic(auto)]

ghost use Rattle.std.specs.Prelude.{◌≡◌, length};
ghost use Rattle.causal_reading.specs.Readings.{reply_of, reading};
ghost use Rattle.answer_codes.specs.Codes.{reply_code, causal_code};
ghost use Rattle.huntyghai_theory.specs.Texts.{reading_of_input};

use action_language::{Description, Law};
use basics::Refusal;
use causal_reading::Reading;

// The causal reading of values that are there already, made once and so many times again; the last answer.
fn repeated(d: Description, laws: &[Law], values: &[u8], times: usize) -> Result<Reading, Refusal>
    ensures { reply_of result ≡ reading d laws.now (length laws.now) values.now }
{
    let mut last = causal_reading::causal_reading(d, laws, values);
    for _ in 0..times {
        last = causal_reading::causal_reading(d, laws, values);
    }
    last
}

// A whole input read once, and its history causally once and so many times again.
fn read_repeatedly(input: &[u8], times: usize) -> Result<Reading, Refusal>
    ensures { reply_code causal_code (reply_of result) ≡ reading_of_input input.now }
{
    let whole = inputs::read_input(input);
    whole.answer?;
    let values = &whole.values[..whole.atoms];
    repeated(whole.description, &whole.laws, values, times)
}

// An input is read once, its history causally once and so many times again. The answer is that of the library's function on
// a whole input.
#[unsafe(no_mangle)]
pub extern "C" fn causal_times(input: &[u8], times: usize) -> u64
    ensures { result ≡ reading_of_input input.now }
{
    answer_codes::of(read_repeatedly(input, times))
}
