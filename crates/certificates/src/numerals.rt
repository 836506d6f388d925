//! Numbers in a field: 0 to 999 in decimal digits, with no sign and no leading zero.
ghost use Rattle.std.specs.Prelude.{◌≡◌, Some};
ghost use Rattle.certificates.specs.Numerals.{digits_behind, numeral_of, starts_well, with_digit};

/// `value` with one digit more, if `byte` is a digit and the number stays below 1000.
fn with_digit(value: u16, byte: u8) -> Option<u16>
    ensures { result ≡ with_digit value byte }
{
    match byte {
        b'0'..=b'9' if value < 100 => Some(value * 10 + u16::from(byte - b'0')),
        _ => None,
    }
}

/// The number that the digits make.
fn digits_value(digits: &[u8]) -> Option<u16>
    ensures { result ≡ digits_behind (Some 0) digits.now }
{
    // `try_fold` is no plainer: it is proved by a lemma on its turns, and this loop by its invariant alone.
    let mut value = 0;
    for digit in digits {
        value = with_digit(value, *digit)?;
    }
    Some(value)
}

/// Some digit, and no zero before another.
fn starts_well(digits: &[u8]) -> bool
    ensures { result ≡ starts_well digits.now }
{
    !matches!(digits, [] | [b'0', _, ..])
}

/// The number that a field writes; nothing for any other field.
pub fn numeral(field: &str) -> Option<u16>
    ensures { result ≡ numeral_of field.now }
{
    let digits = field.as_bytes();
    if !starts_well(digits) {
        return None;
    }
    digits_value(digits)
}
