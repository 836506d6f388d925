//! The lists of a column, one row a line.
use crate::layout::Layout;
use crate::values::Values;
use fault::Fault;
use std::alloc::{AllocError, AllocFailed, Global};

/// Why an upload is not held.
#[derive(Clone, Copy, Debug)]
pub enum Unheld {
    /// The layout has no numbers for so many bytes.
    TooLarge(Layout),
    /// A column over the lists does not open.
    Fault(Fault),
    Memory(AllocError),
}

impl From<Fault> for Unheld {
    fn from(fault: Fault) -> Unheld {
        Unheld::Fault(fault)
    }
}

impl From<AllocError> for Unheld {
    fn from(error: AllocError) -> Unheld {
        Unheld::Memory(error)
    }
}

impl<T: Drop> From<AllocFailed<T>> for Unheld {
    fn from(failed: AllocFailed<T>) -> Unheld {
        Unheld::Memory(failed.into())
    }
}

/// The lists that a column is opened over.
pub trait Lists: Sized + Drop {
    /// All lines, each valid yet.
    fn new(heap: Global, lines: Values) -> Result<Self, Unheld>;

    /// The number of lines.
    fn rows(&self) -> usize;

    /// Refuses the rows from one on that may not be opened, none of them taken for null.
    fn check_from(&self, first: usize) -> Result<(), Fault>;

    /// Makes a row null.
    fn make_null(&mut self, row: usize);

    /// Makes every damaged line a null row: opening goes on behind each.
    fn null_damaged(&mut self) -> Result<(), Fault> {
        let mut first = 0;
        // At most once a line: a count of turns, by which nothing is indexed.
        for _ in 0..self.rows() {
            match self.check_from(first) {
                Ok(()) => return Ok(()),
                Err(Fault::Malformed { row }) => {
                    let damaged = first.saturating_add(row);
                    self.make_null(damaged);
                    first = damaged.saturating_add(1);
                }
                Err(fault) => return Err(fault),
            }
        }
        Ok(())
    }

    /// All lines, the damaged ones null.
    fn hold(heap: Global, lines: Values) -> Result<Self, Unheld> {
        let mut lists = Self::new(heap, lines)?;
        lists.null_damaged()?;
        Ok(lists)
    }
}
