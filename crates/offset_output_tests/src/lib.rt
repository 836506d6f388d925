//! Tests of the offset outputs on examples.
#![tactic(auto)]

pub mod as_found;
#[cfg(test)]
mod batches;
#[cfg(test)]
mod capacity;
#[cfg(test)]
mod reading;
pub mod reopened;
#[cfg(test)]
mod rows;
