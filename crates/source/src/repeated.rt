//! One row, any number of times.
ghost use Rattle.std.specs.Prelude.{◌≡◌, replicate, None, slice_index_or};
ghost use Rattle.std.specs.Option.{option_map};

use crate::Source;

/// A single operand as a source or as positions: every row is the same.
#[derive(Clone, Copy)]
pub struct Repeated<T> {
    pub(crate) row: Option<T>,
    // The caller's: no list tells it.
    pub(crate) rows: usize,
}

impl<T: Copy> Repeated<T> {
    /// The row, as many times.
    pub fn new(row: Option<T>, rows: usize) -> Repeated<T>
        ensures row { result.row ≡ row }
        ensures rows { result.rows ≡ rows }
    {
        Repeated { row, rows }
    }

    /// The row at a number; nothing past the end.
    pub(crate) fn at(&self, row: usize) -> Option<T>
        ensures { result ≡ slice_index_or (replicate self.now.rows self.now.row) row None }
    {
        if row >= self.rows {
            return None;
        }
        self.row
    }
}

impl<'a> Source<'a> for Repeated<&'a str> {
    ghost listed = { λ s. replicate s.rows (option_map (λ x. x.now) s.row) };

    fn rows(&self) -> usize {
        self.rows
    }

    fn text(&self, row: usize) -> Option<&'a str> {
        self.at(row)
    }
}
