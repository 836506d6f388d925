//! What a view column is read from.

/// Data bytes, and where each buffer of them ends.
#[derive(Clone, Copy)]
pub struct Buffers<'a> {
    pub bytes: &'a [u8],
    pub ends: &'a [u64],
}

/// Lent memory: views of 16 bytes each, the data that the long ones point into, and the validity bitmap.
#[derive(Clone, Copy)]
pub struct Lent<'a> {
    pub views: &'a [u8],
    pub buffers: Buffers<'a>,
    pub validity: Option<&'a [u8]>,
}
