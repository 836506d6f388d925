//! Tests of view columns on examples.
#![tactic(auto)]

#[cfg(test)]
mod rows;
