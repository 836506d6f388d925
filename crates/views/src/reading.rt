//! Opening and reading of lent memory.
ghost use Rattle.std.specs.Prelude.{◌≡◌, ◌+◌, ◌*◌, ◌≤◌, length};
ghost use Rattle.source.specs.Verdicts.{fault_of};
ghost use Rattle.views.specs.Layout.{view};
ghost use Rattle.views.specs.Reading.{lists};
ghost use Rattle.views.specs.Verdict.{enough, verdict};

use crate::lent::Lent;
use crate::view::View;
use bitmap::{covers, is_valid};
use fault::Fault;

impl<'a> Lent<'a> {
    /// Whether the lists are long enough for the rows.
    #[tactic(auto, using(std::proofs::lemmas::Bool::Decides::nat_tests), unfolding(crate::specs::Verdict::enough))]
    fn is_enough(&self, rows: usize) -> bool
        ensures { result ≡ enough rows (lists self.now) }
    {
        rows <= self.views.len() / 16 && covers(self.validity, rows)
    }

    /// The view of a row.
    pub(crate) fn view(&self, row: usize) -> View<'a>
        requires { 16 * row + 16 ≤ length self.now.views.now }
        ensures { result.bytes.now ≡ view (lists self.now) row }
    {
        View {
            bytes: &self.views[16 * row..16 * row + 16],
        }
    }

    /// Refuses rows that may not be opened.
    #[tactic(auto, using(crate::proofs::Views::room_from_enough, source::proofs::Faults::first_fault_found), unfolding(crate::specs::Verdict::row_fault))]
    pub(crate) fn check(&self, rows: usize) -> Result<(), Fault>
        ensures { fault_of result ≡ verdict rows (lists self.now) }
    {
        if !self.is_enough(rows) {
            return Err(Fault::ShortList);
        }
        let buffers = self.buffers.check()?;
        // By numbers, which rows and faults go by. With `try_for_each` (tried in `columns`) it was not proved that each number is one that the call may be asked for.
        for row in 0..rows {
            if is_valid(self.validity, row) {
                buffers.check(row, self.view(row))?;
            }
        }
        Ok(())
    }
}
