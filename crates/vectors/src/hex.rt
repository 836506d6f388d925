//! Bytes in hexadecimal, two lower-case digits a byte; `-` stands for none.
use std::alloc::{AllocError, AllocFailed, Global};

/// Why no bytes were read.
#[derive(Clone, Copy, PartialEq, Eq, Debug)]
pub enum HexError {
    /// The field writes no bytes.
    NoBytes,
    Memory(AllocError),
}

impl<T: Drop> From<AllocFailed<T>> for HexError {
    fn from(failed: AllocFailed<T>) -> HexError {
        HexError::Memory(AllocError::from(failed))
    }
}

// `char::to_digit` reads upper-case digits too.
/// The value of a digit.
fn nibble(digit: u8) -> Option<u8> {
    match digit {
        b'0'..=b'9' => Some(digit - b'0'),
        b'a'..=b'f' => Some(digit - b'a' + 10),
        _ => None,
    }
}

/// The byte that two digits write.
fn byte(high: u8, low: u8) -> Option<u8> {
    Some(nibble(high)? << 4 | nibble(low)?)
}

/// The bytes that a field writes.
pub fn hex(heap: Global, field: &str) -> Result<Vec<u8>, HexError> {
    let mut bytes = Vec::new(heap);
    if field == "-" {
        return Ok(bytes);
    }
    // Before any byte is read: a digit that stands alone at the end of a long field needs no memory.
    if field.is_empty() || field.len() % 2 != 0 {
        return Err(HexError::NoBytes);
    }
    for pair in field.as_bytes().chunks_exact(2) {
        bytes.push(byte(pair[0], pair[1]).ok_or(HexError::NoBytes)?)?;
    }
    Ok(bytes)
}
