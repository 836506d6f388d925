//! Outputs that copy rows: once, over any memory that rows can be copied to.
#![tactic(auto)]

pub mod copying_output;
pub mod storage;
