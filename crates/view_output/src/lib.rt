//! View outputs: rows copied to lent memory as views, in the layout that view columns are read from.
#![tactic(auto)]

pub mod view_output;
