// Sets of literals as marks, 64 to a word: literal code c is bit c mod 64, from the lowest, of word c div 64.
ghost use Rattle.std.specs.Prelude.{◌≡◌, not, replicate};
ghost use Rattle.basics.specs.Search.{all};
ghost use Rattle.literal_sets.specs.Marks.{marked};

// 2,048 marks, all clear.
pub fn clear() -> [u64; 32]
    ensures { result ≡ replicate 32 0 }
{
    [0; 32]
}

// Whether a literal is in the set.
#[tactic(auto, unfolding(crate::specs::Marks::marked))]
pub fn has(marks: &[u64], code: usize) -> bool
    ensures { result ≡ marked marks.now code }
{
    let word = marks.get(code / 64).copied().unwrap_or(0);
    (word >> (code % 64)) % 2 == 1
}

// Whether every part is in the set.
pub fn all_in(parts: &[u16], marks: &[u64]) -> bool
    ensures { result ≡ all (marked marks.now) parts.now }
{
    for part in parts {
        if !has(marks, usize::from(*part)) {
            return false;
        }
    }
    true
}

// Whether no part is in the set.
pub fn none_in(parts: &[u16], marks: &[u64]) -> bool
    ensures { result ≡ all (λ c. not (marked marks.now c)) parts.now }
{
    for part in parts {
        if has(marks, usize::from(*part)) {
            return false;
        }
    }
    true
}
