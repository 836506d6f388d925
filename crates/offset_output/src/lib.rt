//! Outputs that write rows of text in Arrow's variable-size layout, over lent memory: offsets, value bytes, and a validity bitmap.
//! A finished output is read as an offset column.
#![tactic(auto)]

pub mod filled;
mod filling;
pub mod memory;
pub mod offset_output;
pub mod width;
pub mod width_32;
pub mod width_64;
