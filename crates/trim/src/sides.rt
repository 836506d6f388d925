//! The two ends of a row.
ghost use Rattle.std.specs.Prelude.{◌≡◌};
ghost use Rattle.trim.specs.Ends.{head_size, tail_size};

use crate::bytes::{leading_bytes, trailing_bytes};
use crate::chars::{leading_chars, trailing_chars};

/// How many bytes the longest head of `text` takes whose characters are all in `set`.
pub fn leading(text: &str, set: &str) -> usize
    ensures { result ≡ head_size set.now text.now }
{
    match set.as_bytes() {
        // A text of one byte is one ASCII character, which is part of no other.
        [byte] => leading_bytes(text.as_bytes(), *byte),
        _ => leading_chars(text, set),
    }
}

// The twin of `leading`: the two differ in the end of the text, not in a type, a size or a constant.
/// How many bytes the longest tail of `text` takes whose characters are all in `set`.
pub fn trailing(text: &str, set: &str) -> usize
    ensures { result ≡ tail_size set.now text.now }
{
    match set.as_bytes() {
        [byte] => trailing_bytes(text.as_bytes(), *byte),
        _ => trailing_chars(text, set),
    }
}
