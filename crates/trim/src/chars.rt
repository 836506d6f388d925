//! The ends of a text that are made of characters of a set, found character by character.
ghost use Rattle.std.specs.Prelude.{◌≡◌};
ghost use Rattle.std.specs.Char.{char_set_contains};
ghost use Rattle.std.specs.Str.{chars};
ghost use Rattle.trim.specs.Ends.{head_size, tail_size};

// By whole characters: a byte of one may stand in another.
fn holds(set: &str, c: char) -> bool
    ensures { result ≡ char_set_contains (chars set.now) c }
{
    set.contains(c)
}

/// How many bytes the longest head of `text` takes whose characters are all in `set`.
pub fn leading_chars(text: &str, set: &str) -> usize
    ensures { result ≡ head_size set.now text.now }
{
    text.len() - text.trim_start_matches(|c: char| holds(set, c)).len()
}

// The twin of `leading_chars`: the two differ in the end of the text, not in a type, a size or a constant.
/// How many bytes the longest tail of `text` takes whose characters are all in `set`.
pub fn trailing_chars(text: &str, set: &str) -> usize
    ensures { result ≡ tail_size set.now text.now }
{
    text.len() - text.trim_end_matches(|c: char| holds(set, c)).len()
}
