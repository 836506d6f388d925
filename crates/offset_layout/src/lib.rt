//! What the memory of an offset output holds: a function of its sizes and of the rows in it.
//! Definitions and lemmas alone; the outputs themselves are built on them.
#![tactic(auto)]
