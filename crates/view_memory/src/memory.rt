//! Memory lent for views.

/// Lent memory: views of 16 bytes each, the validity bitmap, the ends of the buffers, and the bytes that they lie in.
pub struct Memory<'a> {
    pub views: &'a mut [u8],
    pub validity: &'a mut [u8],
    pub ends: &'a mut [u64],
    pub bytes: &'a mut [u8],
}
