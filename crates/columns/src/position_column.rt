//! Position columns: signed 64-bit numbers, each valid or null.
ghost use Rattle.std.specs.Prelude.{◌≡◌, true, [], IfOk};
ghost use Rattle.columns.specs.Positions.{enough_numbers, numbers, positions_in, positions_verdict};
ghost use Rattle.source.specs.Verdicts.{accepts, fault_of};

use bitmap::{covers, is_valid};
use fault::Fault;
use source::Positions;

/// Positions, checked when they were opened.
#[derive(Clone, Copy)]
pub struct PositionColumn<'a> {
    // The caller's: the lists may be longer.
    rows: usize,
    values: &'a [i64],
    validity: Option<&'a [u8]>,
    ghost sound: { accepts (positions_verdict rows (numbers values validity)) ≡ true },
}

/// Whether the lists are long enough for the rows.
#[tactic(auto, using(std::proofs::lemmas::Bool::Decides::nat_tests), unfolding(crate::specs::Positions::enough_numbers))]
fn is_enough(rows: usize, values: &[i64], validity: Option<&[u8]>) -> bool
    ensures { result ≡ enough_numbers rows (numbers values.entry validity.entry) }
{
    rows <= values.len() && covers(validity, rows)
}

impl<'a> PositionColumn<'a> {
    /// A column of no rows.
    #[tactic(auto, unfolding(crate::specs::Positions::enough_numbers, source::specs::Rows::rows_by))]
    pub fn empty() -> PositionColumn<'a>
        ensures { positions_in result.rows (numbers result.values result.validity) ≡ [] }
    {
        PositionColumn {
            // No `Default`: its derive is refused for a struct with a ghost field.
            rows: 0,
            values: &[],
            validity: None,
        }
    }

    /// A column of the positions that lie in lent memory.
    pub fn open(
        rows: usize,
        values: &'a [i64],
        validity: Option<&'a [u8]>,
    ) -> Result<PositionColumn<'a>, Fault>
        ensures answer { fault_of result ≡ positions_verdict rows (numbers values.entry validity.entry) }
        ensures column { IfOk result (λ c. (c.rows ≡ rows) × (c.values ≡ values.entry) × (c.validity ≡ validity.entry)) }
    {
        if !is_enough(rows, values, validity) {
            return Err(Fault::ShortList);
        }
        Ok(PositionColumn {
            rows,
            values,
            validity,
        })
    }
}

impl<'a> Positions for PositionColumn<'a> {
    ghost numbered = { λ s. positions_in s.rows (numbers s.values s.validity) };

    #[tactic(auto, using(source::proofs::Numbered::length_rows_by))]
    fn rows(&self) -> usize {
        self.rows
    }

    #[tactic(auto, using(crate::proofs::Positions::has_values, source::proofs::Numbered::at_rows_by, source::proofs::Numbered::past_rows_by))]
    fn position(&self, row: usize) -> Option<i64> {
        if row >= self.rows || !is_valid(self.validity, row) {
            return None;
        }
        Some(self.values[row])
    }
}
