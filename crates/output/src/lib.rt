//! Outputs: what rows are written to. The trait says what an output means; calls are generic over it.
//! An output holds kept rows and pending rows, and a rule that never changes gives its verdict on a coming row.
#![tactic(auto)]

ghost use Rattle.std.specs.Prelude.{◌≡◌, ℕ, List, [], ◌++◌, map, length, None};
ghost use Rattle.output.specs.declared.Counts.{Counts};
ghost use Rattle.output.specs.Pieces.{piece_of};
ghost use Rattle.output.specs.Rows.{Comes, OwnFault, Terms, grown, nulls_in, row_of};
ghost use Rattle.output.specs.Rows.{Piece as Held};
ghost use Rattle.source.specs.Rows.{Row};
ghost use Rattle.source.specs.Verdicts.{Verdict, fault_of};

use fault::Fault;

/// A row to add: its text or null, and where it comes from, the number of a row of the base and the place in it.
#[derive(Clone, Copy)]
pub struct Piece<'t> {
    pub text: Option<&'t str>,
    pub from: usize,
    pub place: u64,
}

/// A batch that is open. It cannot be let go: `keep` or `discard` takes it back, on every path.
pub struct Slip(());

impl Slip {
    /// Ends the batch; for the `keep` and the `discard` of an output.
    pub fn spend(self) {
        let Slip(()) = self;
    }
}

/// What an output holds when it is finished. A count that its kind lacks is 0.
#[derive(Clone, Copy, PartialEq, Eq, Debug, Default)]
pub struct Counts {
    pub rows: usize,
    pub nulls: usize,
    pub value_bytes: usize,
    pub buffers: usize,
    pub long_views: usize,
}

// Of each function that changes an output a clause says what it leaves of the three members: that is its contract, and no invariant.
/// An output means the rows that it keeps, the rows that are pending, and the terms on which it takes rows, which never change.
pub trait Output {
    /// What is given back at the end.
    type Memory;

    ghost kept: { Self → List Held };

    ghost pending: { Self → List Held };

    ghost terms: { Self → Terms };

    ghost memory: { Self → List ℕ };

    ghost reading: { Self.Memory → Counts → List Row };

    ghost opened: { Self.Memory → Counts → Verdict };

    /// The number of rows kept.
    fn rows(&self) -> usize
        ensures { result ≡ length (kept self.now) };

    /// Opens a batch.
    fn open(&mut self) -> Slip
        ensures kept { kept self.new ≡ kept self.old }
        ensures pending { pending self.new ≡ pending self.old }
        ensures terms { terms self.new ≡ terms self.old }
    {
        Slip(())
    }

    /// Puts a row last among the pending ones, or says why not.
    fn add(&mut self, piece: Piece<'_>) -> Result<(), Fault>
        ensures verdict { fault_of result ≡ (terms self.old).rule (map row_of (kept self.old ++ pending self.old)) (row_of ((terms self.old).taken (piece_of piece.entry))) }
        ensures kept { kept self.new ≡ kept self.old }
        ensures pending { pending self.new ≡ grown result (pending self.old) ((terms self.old).taken (piece_of piece.entry)) }
        ensures terms { terms self.new ≡ terms self.old };

    /// Moves the pending rows behind the kept ones. Callers give a slip back by `keep`.
    fn keep_pending(&mut self)
        ensures kept { kept self.new ≡ kept self.old ++ pending self.old }
        ensures pending { pending self.new ≡ [] }
        ensures terms { terms self.new ≡ terms self.old };

    /// Drops the pending rows. Callers give a slip back by `discard`.
    fn drop_pending(&mut self)
        ensures kept { kept self.new ≡ kept self.old }
        ensures pending { pending self.new ≡ [] }
        ensures terms { terms self.new ≡ terms self.old };

    /// Ends a batch: moves the pending rows behind the kept ones.
    fn keep(&mut self, slip: Slip)
        ensures kept { kept self.new ≡ kept self.old ++ pending self.old }
        ensures pending { pending self.new ≡ [] }
        ensures terms { terms self.new ≡ terms self.old }
    {
        slip.spend();
        self.keep_pending();
    }

    /// Ends a batch: drops the pending rows.
    fn discard(&mut self, slip: Slip)
        ensures kept { kept self.new ≡ kept self.old }
        ensures pending { pending self.new ≡ [] }
        ensures terms { terms self.new ≡ terms self.old }
    {
        slip.spend();
        self.drop_pending();
    }

    /// Drops the pending rows, and gives back the memory with the counts; what it reads is what was kept, and it opens again.
    fn finish(self) -> (Counts, Self::Memory)
    where
        Self: Sized,
        ensures reading { reading result.1 result.0 ≡ map row_of (kept self) }
        ensures rows { result.0.rows ≡ length (kept self) }
        ensures nulls { result.0.nulls ≡ nulls_in (map row_of (kept self)) }
        ensures accepted { opened result.1 result.0 ≡ None };

    // What it makes of a piece of its base is the row that the piece is.
    ghost faithful: { (s : Self) (p : Held) → Comes (terms s).base p → row_of ((terms s).taken p) ≡ row_of p };

    // The sizes of the memory and the rows held fix the whole memory.
    ghost fixed: { (a b : Self) → (terms a).sizes ≡ (terms b).sizes → kept a ≡ kept b → pending a ≡ pending b → memory a ≡ memory b };

    // What it refuses a row for is a fault of outputs.
    ghost refusals: { (s : Self) (rows : List Row) (row : Row) → OwnFault ((terms s).rule rows row) };
}
