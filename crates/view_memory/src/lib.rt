//! The memory of a view output: what rows take of it, and the rule by which it takes them.
#![tactic(auto)]

pub mod filled;
mod filling;
mod lists;
pub mod memory;
mod placing;
