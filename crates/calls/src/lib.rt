//! Calls: what adds rows to an output. The trait says what a call means; one generic text makes every call.
#![tactic(auto)]

ghost use Rattle.std.specs.Prelude.{◌≡◌};
ghost use Rattle.book.specs.Requests.{Request};
ghost use Rattle.calls.specs.Offers.{Drawn, offered};
ghost use Rattle.source.specs.Verdicts.{fault_of};

use fault::Fault;
use output::Piece;

pub mod making;

/// A call means its request: the fault before its first row, and what it offers for each row of its window.
pub trait Call<'t> {
    ghost request: { Self → Request };

    /// Refused for the fault that is there before the first row.
    fn start(&self) -> Result<(), Fault>
        ensures { fault_of result ≡ (request self.now).start };

    /// The number of rows of its window.
    fn rows(&self) -> usize
        ensures { result ≡ (request self.now).size };

    /// What it offers for a row: a part of one of the rows that it draws from, null, or the row's own fault.
    fn row(&self, row: usize) -> Result<Piece<'t>, Fault>
        ensures offer { offered result ≡ (request self.now).offer row }
        ensures drawn { Drawn (request self.now).drawn result };
}
