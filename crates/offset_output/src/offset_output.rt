//! Offset outputs, of every width.
use crate::filled::Filled;
use copying::copying_output::CopyingOutput;

/// Copies rows to lent memory.
pub type OffsetOutput<'a, W> = CopyingOutput<Filled<'a, W>>;
