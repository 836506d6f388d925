//! Memory with rows in it.
ghost use Rattle.copying.specs.Keeping.{Keeps};
ghost use Rattle.offset_output.specs.Memories.{Has, counted, rows_of};

use crate::memory::Memory;
use crate::width::OffsetWidth;
use output::Counts;

// Beside the one of views: what has to hold is said in the words of each layout.
/// Lent memory that holds rows and nothing else: what the kept ones take, which come first, and what all take.
pub struct Filled<'a, W: OffsetWidth> {
    pub(crate) memory: Memory<'a, W>,
    pub(crate) kept: Counts,
    pub(crate) held: Counts,
    ghost has: { Has W.Width.number memory held },
    ghost keeps: { Keeps counted (rows_of W.Width.number memory held.rows) kept },
}
