//! The row book: what every list of calls must answer, and which rows an output then holds, by the calls alone.
//! Definitions and what follows from them; there is no code here.
#![tactic(auto)]
