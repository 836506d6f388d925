//! Offset columns, of every width.
ghost use Rattle.std.specs.Prelude.{◌≡◌, true, [], IfOk, MatchResult};
ghost use Rattle.columns.specs.Meaning.{Opens, Reads, Refused};
ghost use Rattle.columns.specs.Offsets.{rows_in, verdict};
ghost use Rattle.columns.specs.Reading.{lists};
ghost use Rattle.source.specs.Verdicts.{accepts, fault_of};

use crate::lent::Lent;
use crate::width::Width;
use bitmap::is_valid;
use fault::Fault;
use source::Source;
use std::alloc::AllocError;

/// Rows of text, checked when they were opened.
pub struct OffsetColumn<'a, W: Width> {
    // The caller's: the lists may be longer.
    rows: usize,
    lent: Lent<'a, W>,
    ghost sound: { accepts (verdict rows (lists W.number lent)) ≡ true },
}

// By hand: a derive refuses a generic struct with a ghost field (tried).
impl<'a, W: Width> Copy for OffsetColumn<'a, W> {}

impl<'a, W: Width> Clone for OffsetColumn<'a, W> {
    ghost is_clone = { λ it copy. copy ≡ it };

    ghost is_infallible = { λ _. Unit {0} };

    fn clone(&self) -> Result<OffsetColumn<'a, W>, AllocError> {
        Ok(*self)
    }
}

impl<'a, W: Width> OffsetColumn<'a, W> {
    /// A column of no rows.
    #[tactic(auto, unfolding(crate::specs::Offsets::enough, source::specs::Rows::rows_by))]
    pub fn empty() -> OffsetColumn<'a, W>
        ensures { rows_in result.rows (lists W.number result.lent) ≡ [] }
    {
        OffsetColumn {
            // No `Default`: its derive is refused for a struct with a ghost field.
            rows: 0,
            lent: Lent {
                offsets: &[],
                values: &[],
                validity: None,
            },
        }
    }

    /// A column of the rows that lie in lent memory.
    pub fn open(rows: usize, lent: Lent<'a, W>) -> Result<OffsetColumn<'a, W>, Fault>
        ensures answer { fault_of result ≡ verdict rows (lists W.number lent.entry) }
        ensures meaning { MatchResult result (λ _. Opens rows (lists W.number lent.entry) × Reads rows (lists W.number lent.entry)) (λ e. Refused rows (lists W.number lent.entry) e) }
        ensures column { IfOk result (λ c. (c.rows ≡ rows) × (c.lent ≡ lent.entry)) }
    {
        lent.check(rows)?;
        Ok(OffsetColumn { rows, lent })
    }
}

impl<'a, W: Width> Source<'a> for OffsetColumn<'a, W> {
    ghost listed = { λ s. rows_in s.rows (lists W.number s.lent) };

    #[tactic(auto, using(source::proofs::Numbered::length_rows_by))]
    fn rows(&self) -> usize {
        self.rows
    }

    #[tactic(auto, using(source::proofs::Numbered::at_rows_by, source::proofs::Numbered::past_rows_by, crate::proofs::Opened::has_enough, crate::proofs::Opened::room_from_enough, crate::proofs::Opened::row_formed, text::proofs::Forms::utf8_from_formed))]
    fn text(&self, row: usize) -> Option<&'a str> {
        if row >= self.rows || !is_valid(self.lent.validity, row) {
            return None;
        }
        let bytes = self.lent.part(row)?;
        Some(unsafe { std::str::from_utf8_unchecked(bytes) })
    }
}
