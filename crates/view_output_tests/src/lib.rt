//! Tests of the view output on examples.
#![tactic(auto)]

#[cfg(test)]
mod batches;
#[cfg(test)]
mod buffers;
#[cfg(test)]
mod capacity;
#[cfg(test)]
mod reading;
#[cfg(test)]
mod rows;
