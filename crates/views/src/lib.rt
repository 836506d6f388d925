//! View columns over lent memory in Arrow's layout: short texts stand in the views, long ones in buffers.
//! Opening a column is the only way to get one, and checks everything, so that no later call meets a damaged row.
#![tactic(auto)]

mod buffers;
pub mod lent;
mod reading;
mod view;
pub mod view_column;
