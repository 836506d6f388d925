//! The bitmap of an upload: every line is valid until it is found damaged.
use std::alloc::{AllocError, Global};

/// A bitmap of so many ones.
pub fn all_valid(heap: Global, rows: usize) -> Result<Vec<u8>, AllocError> {
    vec![in heap; 0xff; rows / 8 + 1]
}

/// Makes a row null; a row past the bitmap stays as it is.
pub fn make_null(validity: &mut [u8], row: usize) {
    if let Some(byte) = validity.get_mut(row / 8) {
        *byte &= !(1u8 << (row % 8));
    }
}
