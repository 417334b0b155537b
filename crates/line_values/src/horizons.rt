// The horizon's spelling: 1 to 30 without a leading zero.
ghost use Rattle.std.specs.Prelude.{◌≡◌, ◌-◌, ◌<◌, cond, IfSome, Some, None};
ghost use Rattle.basics.specs.Refusals.{place_of};
ghost use Rattle.spelling.specs.Letters.{is_digit};
ghost use Rattle.line_values.specs.HorizonText.{in_horizon, two_digits, horizon_of};

use spelling;

// 1 to 30.
fn in_horizon(t: usize) -> Option<usize>
    ensures { place_of result ≡ in_horizon t }
{
    (1 <= t && t <= 30).then_some(t)
}

// What a digit's byte stands for.
fn digit(b: u8) -> Option<usize>
    ensures value { result ≡ cond (is_digit b) (Some (b - 48)) None }
    ensures few { IfSome result (λ d. d < 10) }
{
    if !spelling::is_digit(b) {
        return None;
    }
    Some(usize::from(b - b'0'))
}

// Two digits, of which the first is no zero.
fn two_digits(a: u8, b: u8) -> Option<usize>
    ensures { place_of result ≡ two_digits a b }
{
    if a == b'0' {
        return None;
    }
    in_horizon(10 * digit(a)? + digit(b)?)
}

// The horizon: one digit, or two.
#[tactic(auto, using(crate::proofs::Digits::by_length))]
pub fn horizon_of(value: &[u8]) -> Option<usize>
    ensures { place_of result ≡ horizon_of value.now }
{
    match *value {
        [a] => in_horizon(digit(a)?),
        [a, b] => two_digits(a, b),
        _ => None,
    }
}
