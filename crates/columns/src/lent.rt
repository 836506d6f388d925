//! What an offset column is read from.
use crate::width::Width;

/// Lent memory: offsets, the value bytes that they cut, and the validity bitmap.
#[derive(Clone, Copy)]
pub struct Lent<'a, W: Width> {
    pub offsets: &'a [W],
    pub values: &'a [u8],
    pub validity: Option<&'a [u8]>,
}
