//! The views that stand for texts, as bytes in lent memory.
#![tactic(auto)]

pub mod cells;
