//! Row rules: how one row is cut at a delimiter, by a number.
ghost use Rattle.std.specs.Prelude.{◌≡◌, ℕ, List, length, take, drop, ℤ, IfOk, Result};
ghost use Rattle.fault.specs.declared.Fault.{Fault as Faults};
ghost use Rattle.kernels.specs.Cuts.{index_cut, none_refused, zero_refused};
ghost use Rattle.source.specs.Verdicts.{Verdict, fault_of};
ghost use Rattle.split.specs.Fields.{Part, answered, field_at};

use fault::Fault;
use index::substr_index;
use search::Searcher;
use split::split_part;

/// A row rule means what it cuts from a row, and the numbers that it refuses whatever the row.
pub trait Cutting {
    ghost cut: { List ℕ → List ℕ → ℤ → Result Part Faults };

    ghost refused: { ℤ → Verdict };

    /// Refused for a number that is refused whatever the row.
    fn check(&self, number: i64) -> Result<(), Fault>
        ensures { fault_of result ≡ refused number };

    /// What is cut from a row, and its place there.
    fn cut_row<'t, F: Searcher>(
        &self,
        row: &'t str,
        finder: &F,
        number: i64,
    ) -> Result<(&'t str, u64), Fault>
        ensures answer { answered result ≡ cut (F.delimiter finder.now) row.now number }
        ensures within { IfOk result (λ p. p.0.now ≡ take (length p.0.now) (drop p.1 row.now)) };
}

/// Split: the field at a position.
#[derive(Clone, Copy)]
pub struct SplitPart;

impl Cutting for SplitPart {
    ghost cut = { field_at };

    ghost refused = { zero_refused };

    fn check(&self, number: i64) -> Result<(), Fault> {
        if number == 0 {
            return Err(Fault::ZeroPosition { row: 0 });
        }
        Ok(())
    }

    fn cut_row<'t, F: Searcher>(
        &self,
        row: &'t str,
        finder: &F,
        number: i64,
    ) -> Result<(&'t str, u64), Fault> {
        split_part(row, finder, number)
    }
}

/// Index: what precedes or follows an occurrence.
#[derive(Clone, Copy)]
pub struct SubstrIndex;

impl Cutting for SubstrIndex {
    ghost cut = { index_cut };

    ghost refused = { none_refused };

    fn check(&self, _number: i64) -> Result<(), Fault> {
        Ok(())
    }

    fn cut_row<'t, F: Searcher>(
        &self,
        row: &'t str,
        finder: &F,
        number: i64,
    ) -> Result<(&'t str, u64), Fault> {
        Ok(substr_index(row, finder, number))
    }
}
