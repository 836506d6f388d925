//! Windows: some rows, one after the other.
ghost use Rattle.std.specs.Prelude.{◌≡◌, ◌+◌, ◌-◌, min, nat_le};
ghost use Rattle.source.specs.Rows.{meant, window, window_of};

use crate::{Positions, Source};
use fault::Fault;

/// Rows of a source or of positions, from one on. A window is such a thing too, so windows of it can be taken.
#[derive(Clone, Copy)]
pub struct Window<'w, S> {
    source: &'w S,
    first: usize,
    // The caller's: no list tells it.
    rows: usize,
}

/// Whether the window reaches no further than all the rows. No sum may wrap.
fn is_within(first: usize, rows: usize, all: usize) -> bool
    ensures { result ≡ nat_le (first + rows) all }
{
    first.checked_add(rows).is_some_and(|end| end <= all)
}

impl<'w, S> Window<'w, S> {
    /// Refused where the window reaches past the source's rows.
    pub fn new<'a>(source: &'w S, first: usize, rows: usize) -> Result<Window<'w, S>, Fault>
    where
        S: Source<'a>,
        ensures { meant (λ w. window w.first w.rows (S.Source.listed w.source.now)) result ≡ window_of first rows (S.Source.listed source.now) }
    {
        if !is_within(first, rows, source.rows()) {
            return Err(Fault::Window);
        }
        Ok(Window {
            source,
            first,
            rows,
        })
    }

    /// The same of positions.
    // Beside `new`: one over a trait of both could speak of how many rows there are, and not of the rows.
    pub fn of_positions(positions: &'w S, first: usize, rows: usize) -> Result<Window<'w, S>, Fault>
    where
        S: Positions,
        ensures { meant (λ w. window w.first w.rows (S.Positions.numbered w.source.now)) result ≡ window_of first rows (S.Positions.numbered positions.now) }
    {
        if !is_within(first, rows, positions.rows()) {
            return Err(Fault::Window);
        }
        Ok(Window {
            source: positions,
            first,
            rows,
        })
    }

    /// How many of the rows there are, among so many.
    fn clipped(&self, all: usize) -> usize
        ensures { result ≡ min self.now.rows (all - self.now.first) }
    {
        self.rows.min(all.saturating_sub(self.first))
    }
}

impl<'w, 'a, S: Source<'a>> Source<'a> for Window<'w, S> {
    ghost listed = { λ w. window w.first w.rows (S.Source.listed w.source.now) };

    fn rows(&self) -> usize {
        self.clipped(self.source.rows())
    }

    fn text(&self, row: usize) -> Option<&'a str> {
        if row >= self.clipped(self.source.rows()) {
            return None;
        }
        self.source.text(self.first + row)
    }
}

impl<'w, S: Positions> Positions for Window<'w, S> {
    ghost numbered = { λ w. window w.first w.rows (S.Positions.numbered w.source.now) };

    fn rows(&self) -> usize {
        self.clipped(self.source.rows())
    }

    fn position(&self, row: usize) -> Option<i64> {
        if row >= self.clipped(self.source.rows()) {
            return None;
        }
        self.source.position(self.first + row)
    }
}
