//! Columns over lent memory in Arrow's layouts: text cut by offsets, and positions.
//! Opening a column is the only way to get one, and checks everything, so that no later call meets a damaged row.
#![tactic(auto)]

pub mod lent;
pub mod offset_column;
pub mod position_column;
mod reading;
pub mod width;
pub mod width_32;
pub mod width_64;
