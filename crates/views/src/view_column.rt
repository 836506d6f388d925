//! View columns.
ghost use Rattle.std.specs.Prelude.{◌≡◌, ◌<◌, true, cond, ◌&&◌, nat_lt, [], IfOk, IfSome, Some, None, MatchResult, slice_index_or};
ghost use Rattle.std.specs.Option.{option_map};
ghost use Rattle.bitmap.specs.Validity.{valid};
ghost use Rattle.source.specs.Verdicts.{accepts, fault_of};
ghost use Rattle.views.specs.Layout.{LiesIn, places_in, rows_in, text, view};
ghost use Rattle.views.specs.Meaning.{Opens, Refused};
ghost use Rattle.views.specs.Reading.{held, lists};
ghost use Rattle.views.specs.Verdict.{verdict};

use crate::buffers::CheckedBuffers;
use crate::lent::{Buffers, Lent};
use crate::view::View;
use bitmap::is_valid;
use fault::Fault;
use source::Source;

/// Rows of text, checked when they were opened.
#[derive(Clone, Copy)]
pub struct ViewColumn<'a> {
    // The caller's: the lists may be longer.
    rows: usize,
    lent: Lent<'a>,
    ghost sound: { accepts (verdict rows (lists lent)) ≡ true },
}

impl<'a> ViewColumn<'a> {
    /// A column of no rows.
    #[tactic(auto, unfolding(crate::specs::Verdict::enough, source::specs::Rows::rows_by))]
    pub fn empty() -> ViewColumn<'a>
        ensures { rows_in result.rows (lists result.lent) ≡ [] }
    {
        ViewColumn {
            // No `Default`: its derive is refused for a struct with a ghost field.
            rows: 0,
            lent: Lent {
                views: &[],
                buffers: Buffers {
                    bytes: &[],
                    ends: &[],
                },
                validity: None,
            },
        }
    }

    /// A column of the rows that lie in lent memory.
    pub fn open(rows: usize, lent: Lent<'a>) -> Result<ViewColumn<'a>, Fault>
        ensures answer { fault_of result ≡ verdict rows (lists lent.entry) }
        ensures meaning { MatchResult result (λ _. Opens rows (lists lent.entry)) (λ e. Refused rows (lists lent.entry) e) }
        ensures column { IfOk result (λ c. (c.rows ≡ rows) × (c.lent ≡ lent.entry)) }
    {
        lent.check(rows)?;
        Ok(ViewColumn { rows, lent })
    }

    /// The view of a row; nothing where the row is null or past the end.
    #[tactic(auto, using(crate::proofs::Opened::has_enough, crate::proofs::Views::room_from_enough))]
    fn view(&self, row: usize) -> Option<View<'a>>
        ensures some { IfSome result (λ v. (row < self.now.rows) × (valid (lists self.now.lent).validity row ≡ true) × (v.bytes.now ≡ view (lists self.now.lent) row)) }
        ensures all { option_map (λ v. v.bytes.now) result ≡ cond (nat_lt row self.now.rows && valid (lists self.now.lent).validity row) (Some (view (lists self.now.lent) row)) None }
    {
        if row >= self.rows || !is_valid(self.lent.validity, row) {
            return None;
        }
        Some(self.lent.view(row))
    }

    /// The buffer's number and the offset in it of a row's text; nothing where the row is null, past the end, or stands in its view.
    #[tactic(auto, using(source::proofs::Numbered::at_rows_by, source::proofs::Numbered::past_rows_by, crate::proofs::Opened::has_ends, crate::proofs::Opened::row_fits, crate::proofs::Views::lies_in))]
    pub fn place(&self, row: usize) -> Option<(u32, u32)>
        ensures answer { result ≡ slice_index_or (places_in self.now.rows (lists self.now.lent)) row None }
        ensures lies { IfSome result (λ p. LiesIn (held self.now.lent.buffers) (text (held self.now.lent.buffers) (view (lists self.now.lent) row)) p.0 p.1) }
    {
        let view = self.view(row)?;
        if view.size() <= 12 {
            return None;
        }
        Some((view.buffer(), view.offset()))
    }
}

impl<'a> Source<'a> for ViewColumn<'a> {
    ghost listed = { λ s. rows_in s.rows (lists s.lent) };

    #[tactic(auto, using(source::proofs::Numbered::length_rows_by))]
    fn rows(&self) -> usize {
        self.rows
    }

    #[tactic(auto, using(source::proofs::Numbered::at_rows_by, source::proofs::Numbered::past_rows_by, crate::proofs::Opened::row_fits, crate::proofs::Opened::row_formed, text::proofs::Forms::utf8_from_formed))]
    fn text(&self, row: usize) -> Option<&'a str> {
        let buffers = CheckedBuffers {
            buffers: self.lent.buffers,
        };
        let bytes = buffers.text(self.view(row)?);
        Some(unsafe { std::str::from_utf8_unchecked(bytes) })
    }
}
