//! Writing to lent memory: bytes, numbers and validity bits. What is not written is zero.
#![tactic(auto)]

pub mod bits;
pub mod bytes;
