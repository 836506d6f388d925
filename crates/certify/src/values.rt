//! The lines of an upload, end to end.
use certificates::lines::{Lines, without_return};
use std::alloc::{AllocError, Global};

/// The bytes of all lines without their ends, and where each line ends among them.
#[derive(Drop)]
pub struct Values {
    pub bytes: Vec<u8>,
    pub ends: Vec<u64>,
}

impl Values {
    /// The lines of an upload, in order.
    pub fn new(heap: Global, upload: &[u8]) -> Result<Values, AllocError> {
        let mut bytes = Vec::new(heap);
        let mut ends = Vec::new(heap);
        for line in Lines::new(upload) {
            bytes.extend_from_slice(without_return(line))?;
            ends.push(bytes.len() as u64)?;
        }
        Ok(Values { bytes, ends })
    }
}
