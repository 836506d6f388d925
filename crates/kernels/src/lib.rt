//! The calls themselves: split, index and the trims over columns, with single operands and with column operands.
//! Each is a value that holds its window and its operands; `calls::making::make` makes it upon any output.
#![tactic(auto)]

pub mod characters;
pub mod cutting;
pub mod each;
pub mod pieces;
pub mod single;
pub mod span;
pub mod trimming;
