//! Memory with rows in it.
ghost use Rattle.copying.specs.Keeping.{Keeps};
ghost use Rattle.view_memory.specs.Memories.{Counted, Has, counts_of, rows_of};

use crate::memory::Memory;
use output::Counts;

// Beside the one of offsets: what has to hold is said in the words of each layout.
/// Lent memory that holds rows and nothing else: what the kept ones take, which come first, and what all take.
pub struct Filled<'a> {
    pub(crate) memory: Memory<'a>,
    pub(crate) kept: Counts,
    pub(crate) held: Counts,
    ghost has: { Has memory (rows_of memory held) },
    ghost counted: { Counted held (rows_of memory held) },
    ghost keeps: { Keeps counts_of (rows_of memory held) kept },
}
