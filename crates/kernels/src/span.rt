//! Windows as a call names them: a source, its first row and the number of rows. Whether they are there is for the call to say.
ghost use Rattle.std.specs.Prelude.{◌≡◌, ◌+◌, ◌^◌, ◌<◌, true, is_some, nat_le};
ghost use Rattle.fault.specs.declared.Fault.TheVariants.{Window};
ghost use Rattle.kernels.specs.Shifts.{shifted};
ghost use Rattle.kernels.specs.Spans.{ends, row_in};
ghost use Rattle.source.specs.Verdicts.{fault_of, unless};
ghost use Rattle.std.specs.Option.{option_map};

use fault::Fault;
use source::{Positions, Source};

/// Rows of a source or of positions, from one on.
#[derive_where(Clone, Copy)]
pub struct Span<'a, S> {
    pub source: &'a S,
    pub first: usize,
    pub rows: usize,
}

impl<'a, S> Span<'a, S> {
    /// Whether the rows are among so many. No sum may wrap.
    pub fn is_within(&self, all: usize) -> bool
        ensures { result ≡ nat_le (self.now.first + self.now.rows) all }
    {
        self.first
            .checked_add(self.rows)
            .is_some_and(|end| end <= all)
    }

    /// Refused where the rows are not among so many.
    pub(crate) fn check(&self, all: usize) -> Result<(), Fault>
        ensures { fault_of result ≡ unless (nat_le (self.now.first + self.now.rows) all) Window }
    {
        if self.is_within(all) {
            return Ok(());
        }
        Err(Fault::Window)
    }

    /// Whether the row behind the last has a number.
    pub fn ends(&self) -> bool
        ensures { result ≡ ends self.now.first self.now.rows }
    {
        self.first.checked_add(self.rows).is_some()
    }

    /// So many rows from the row `at` on. No sum may wrap.
    pub fn part(&self, at: usize, rows: usize) -> Span<'a, S>
        ensures { result ≡ shifted self.now at rows }
    {
        Span {
            source: self.source,
            first: self.first.saturating_add(at),
            rows,
        }
    }

    /// The text of a row; nothing where it is null or past the end.
    pub fn text<'t>(&self, row: usize) -> Option<&'t str>
    where
        S: Source<'t>,
        ensures text { option_map (λ x. x.now) result ≡ row_in self.now.first (S.Source.listed self.now.source.now) row }
        ensures within { is_some result ≡ true → self.now.first + row < 2 ^ 64 }
    {
        if row >= self.source.rows().saturating_sub(self.first) {
            return None;
        }
        self.source.text(self.first + row)
    }

    // Beside `text`: a text and a number are read by two traits.
    /// The position at a row; nothing where it is null or past the end.
    pub fn position(&self, row: usize) -> Option<i64>
    where
        S: Positions,
        ensures { result ≡ row_in self.now.first (S.Positions.numbered self.now.source.now) row }
    {
        if row >= self.source.rows().saturating_sub(self.first) {
            return None;
        }
        self.source.position(self.first + row)
    }
}
