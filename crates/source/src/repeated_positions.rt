//! One row repeated, as positions.
ghost use Rattle.std.specs.Prelude.{replicate};

use crate::Positions;
use crate::repeated::Repeated;

impl Positions for Repeated<i64> {
    ghost numbered = { λ s. replicate s.rows s.row };

    fn rows(&self) -> usize {
        self.rows
    }

    fn position(&self, row: usize) -> Option<i64> {
        self.at(row)
    }
}
