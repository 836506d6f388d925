//! The ends of a text that repeat one byte.
ghost use Rattle.std.specs.Prelude.{◌≡◌, nat_eq};
ghost use Rattle.std.specs.List.{prefix_len, suffix_len};

/// How many bytes at the start are `byte`.
pub fn leading_bytes(bytes: &[u8], byte: u8) -> usize
    ensures { result ≡ prefix_len (λ b. nat_eq b byte) bytes.now }
{
    bytes.iter().take_while(|b| **b == byte).count()
}

// The twin of `leading_bytes`: the two differ in the end of the text, not in a type, a size or a constant.
/// How many bytes at the end are `byte`.
pub fn trailing_bytes(bytes: &[u8], byte: u8) -> usize
    ensures { result ≡ suffix_len (λ b. nat_eq b byte) bytes.now }
{
    bytes.iter().rev().take_while(|b| **b == byte).count()
}
