//! Tests of the columns, windows and sources on examples.
#![tactic(auto)]

#[cfg(test)]
mod offsets;
#[cfg(test)]
mod report;
#[cfg(test)]
mod windows;
