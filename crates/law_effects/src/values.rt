// Value bytes.
ghost use Rattle.std.specs.Prelude.{◌≡◌};
ghost use Rattle.law_effects.specs.Applying.{read};

// Value 1 is true; any other is false, and so is one past the end.
pub fn is_true(values: &[u8], i: usize) -> bool
    ensures { result ≡ read values.now i }
{
    values.get(i) == Some(&1)
}
