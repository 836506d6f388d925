//! Bench uploads: their lines, and which condition lines stand for a certificate.
//! The program `certify` is a thin shell over this crate.
#![tactic(auto)]

pub mod conditions;
pub mod kinds;
pub mod lines;
pub mod numerals;
pub mod reading;
pub mod tally;
