//! View outputs.
use copying::copying_output::CopyingOutput;
use view_memory::filled::Filled;

/// Copies rows to lent memory.
pub type ViewOutput<'a> = CopyingOutput<Filled<'a>>;
