//! Trimming one row of text: the longest head, tail, or head and then tail made of characters of a set goes,
//! and what remains is lent back with its place in the row.
#![tactic(auto)]

mod bytes;
mod chars;
mod sides;
#[cfg(test)]
mod tests;
pub mod trimmer;
