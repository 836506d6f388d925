//! Opening and reading of lent memory, once for every width.
ghost use Rattle.std.specs.Prelude.{◌≡◌, ◌+◌, ◌<◌, true, map, length, pos, slice_index_or};
ghost use Rattle.columns.specs.Meaning.{Says};
ghost use Rattle.columns.specs.Offsets.{enough, part, place_of, row_fault, verdict};
ghost use Rattle.columns.specs.Reading.{lists};
ghost use Rattle.source.specs.Verdicts.{fault_of, first_fault};
ghost use Rattle.std.specs.Option.{option_map};

use crate::lent::Lent;
use crate::width::Width;
use bitmap::{covers, is_valid};
use fault::Fault;
use text::well_formed;

/// An offset as a place; nothing where it is negative.
fn place<W: Width>(offsets: &[W], i: usize) -> Option<usize>
    requires { i < length offsets.now }
    ensures { result ≡ place_of (slice_index_or (map W.number offsets.now) i (pos 0)) }
{
    offsets[i].place()
}

impl<'a, W: Width> Lent<'a, W> {
    /// Whether the lists are long enough for the rows.
    #[tactic(auto, using(std::proofs::lemmas::Bool::Decides::nat_tests), unfolding(crate::specs::Offsets::enough))]
    fn is_enough(&self, rows: usize) -> bool
        ensures { result ≡ enough rows (lists W.number self.now) }
    {
        (rows == 0 || rows < self.offsets.len()) && covers(self.validity, rows)
    }

    /// The value bytes of a row; nothing where its offsets are not places in order within them.
    #[tactic(auto, using(std::proofs::lemmas::Bool::Decides::nat_tests), unfolding(crate::specs::Offsets::part))]
    pub(crate) fn part(&self, row: usize) -> Option<&'a [u8]>
        requires { row + 1 < length self.now.offsets.now }
        ensures { option_map (λ x. x.now) result ≡ part (lists W.number self.now) row }
    {
        let start = place(self.offsets, row)?;
        let end = place(self.offsets, row + 1)?;
        self.values.get(start..end)
    }

    /// Refuses a row that does not hold.
    #[tactic(auto, unfolding(crate::specs::Offsets::row_fault))]
    fn check_row(&self, row: usize) -> Result<(), Fault>
        requires { row + 1 < length self.now.offsets.now }
        ensures { fault_of result ≡ row_fault (lists W.number self.now) row }
    {
        let bytes = self.part(row).ok_or(Fault::Offset { row })?;
        if is_valid(self.validity, row) && !well_formed(bytes) {
            return Err(Fault::Malformed { row });
        }
        Ok(())
    }

    /// Refuses the lowest row that does not hold.
    #[tactic(auto, using(source::proofs::Faults::first_fault_found, crate::proofs::Opened::room_from_enough))]
    fn check_rows(&self, rows: usize) -> Result<(), Fault>
        requires { enough rows (lists W.number self.now) ≡ true }
        ensures { fault_of result ≡ first_fault (row_fault (lists W.number self.now)) rows }
    {
        // By numbers, which rows and faults go by. With `try_for_each` (tried) it was not proved that each number is one that the call may be asked for.
        for row in 0..rows {
            self.check_row(row)?;
        }
        Ok(())
    }

    /// Refuses rows that may not be opened.
    #[tactic(auto, using(crate::proofs::Meaning::says, crate::proofs::Meaning::too_short))]
    pub(crate) fn check(&self, rows: usize) -> Result<(), Fault>
        ensures answer { fault_of result ≡ verdict rows (lists W.number self.now) }
        ensures meaning { Says rows (lists W.number self.now) (fault_of result) }
    {
        if !self.is_enough(rows) {
            return Err(Fault::ShortList);
        }
        self.check_rows(rows)
    }
}
