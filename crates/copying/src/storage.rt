//! Memory that rows are copied to.
ghost use Rattle.std.specs.Prelude.{◌≡◌, ℕ, ◌≤◌, List, [], length, replicate, take, None, OnErr};
ghost use Rattle.output.specs.declared.Counts.{Counts};
ghost use Rattle.output.specs.Rows.{OwnFault, Rule, grown, nulls_in};
ghost use Rattle.source.specs.Rows.{Row};
ghost use Rattle.source.specs.Verdicts.{Verdict, fault_of};
ghost use Rattle.std.specs.Option.{option_map};

use fault::Fault;
use output::Counts;

/// Lent memory with rows in it: the kept rows come first, and the pending ones after them.
/// It means the rows that it holds, how many of them are kept, and the memory; what is beyond the rows is zero.
pub trait Storage {
    /// The lent memory.
    type Memory;

    ghost rows: { Self → List Row };

    ghost kept: { Self → ℕ };

    ghost memory: { Self → Self.Memory };

    ghost rule: { Self.Memory → Rule };

    ghost sizes: { Self.Memory → List ℕ };

    ghost all: { Self.Memory → List ℕ };

    ghost image: { List ℕ → List Row → List ℕ };

    ghost counts: { List Row → Counts };

    ghost reading: { Self.Memory → Counts → List Row };

    ghost opened: { Self.Memory → Counts → Verdict };

    /// No rows, in memory that is cleared.
    fn cleared(lent: Self::Memory) -> Self
    where
        Self: Sized,
        ensures rows { rows result ≡ [] }
        ensures rule { rule (memory result) ≡ rule lent }
        ensures sizes { sizes (memory result) ≡ sizes lent }
        ensures zeros { all (memory result) ≡ replicate (length (all lent)) 0 };

    /// The number of rows kept.
    fn rows(&self) -> usize
        ensures { result ≡ kept self.now };

    /// Puts a row behind those held, or says why not.
    fn add(&mut self, text: Option<&str>) -> Result<(), Fault>
        ensures verdict { fault_of result ≡ rule (memory self.old) (rows self.old) (option_map (λ x. x.now) text.entry) }
        ensures rows { rows self.new ≡ grown result (rows self.old) (option_map (λ x. x.now) text.entry) }
        ensures refused { OnErr result (self.new ≡ self.old) }
        ensures kept { kept self.new ≡ kept self.old }
        ensures rule { rule (memory self.new) ≡ rule (memory self.old) }
        ensures sizes { sizes (memory self.new) ≡ sizes (memory self.old) };

    /// Keeps all rows.
    fn keep(&mut self)
        ensures rows { rows self.new ≡ rows self.old }
        ensures kept { kept self.new ≡ length (rows self.old) }
        ensures memory { memory self.new ≡ memory self.old };

    /// Takes the rows behind the kept ones out again.
    fn cut(&mut self)
        ensures rows { rows self.new ≡ take (kept self.old) (rows self.old) }
        ensures kept { kept self.new ≡ kept self.old }
        ensures rule { rule (memory self.new) ≡ rule (memory self.old) }
        ensures sizes { sizes (memory self.new) ≡ sizes (memory self.old) };

    /// Gives the memory back with what its rows take; it reads as them, and it opens again.
    fn give_back(self) -> (Counts, Self::Memory)
    where
        Self: Sized,
        ensures counts { result.0 ≡ counts (rows self) }
        ensures memory { result.1 ≡ memory self }
        ensures reading { reading result.1 result.0 ≡ rows self }
        ensures accepted { opened result.1 result.0 ≡ None };

    // The kept rows are among those held.
    ghost within: { (s : Self) → kept s ≤ length (rows s) };

    // All memory is fixed by its sizes and the rows held.
    ghost imaged: { (s : Self) → all (memory s) ≡ image (sizes (memory s)) (rows s) };

    // What it refuses a row for is a fault of outputs.
    ghost refusals: { (m : Self.Memory) (before : List Row) (row : Row) → OwnFault (rule m before row) };

    // The rows and the nulls are counted.
    ghost counted: { (held : List Row) → ((counts held).rows ≡ length held) × ((counts held).nulls ≡ nulls_in held) };
}
