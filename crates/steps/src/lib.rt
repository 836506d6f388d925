//! Lists of calls by numbers: each names its window, and its operands as single values or as windows of operand columns.
//! The columns stand beside the list.
#![tactic(auto)]

pub mod any_call;
pub mod step;
