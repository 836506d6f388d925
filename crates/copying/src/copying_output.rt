//! The output over a storage.
ghost use Rattle.std.specs.Prelude.{◌≡◌, [], ◌++◌, map, length, replicate, None, refl};
ghost use Rattle.std.proofs.Common.{ap, sym, ◌∙◌};
ghost use Rattle.copying.specs.Pieces.{kept_pieces, pending_pieces};
ghost use Rattle.copying.specs.laws.Held.{held_same};
ghost use Rattle.output.specs.Rows.{copied, nulls_in, row_of};

use crate::storage::Storage;
use fault::Fault;
use output::{Counts, Output, Piece};

/// Copies rows to lent memory. What its storage holds is the storage's own invariant: with a bound here an output over
/// memory that is lent could not be passed to what is generic over outputs.
pub struct CopyingOutput<S> {
    store: S,
}

impl<S: Storage> CopyingOutput<S> {
    /// An output without rows; all of the memory is cleared.
    pub fn new(memory: S::Memory) -> CopyingOutput<S>
        ensures kept { kept_pieces (S.kept result.store) (S.rows result.store) ≡ [] }
        ensures pending { pending_pieces (S.kept result.store) (S.rows result.store) ≡ [] }
        ensures rule { S.rule (S.memory result.store) ≡ S.rule memory }
        ensures sizes { S.sizes (S.memory result.store) ≡ S.sizes memory }
        ensures memory { S.all (S.memory result.store) ≡ S.image (S.sizes memory) [] }
        ensures zeros { S.all (S.memory result.store) ≡ replicate (length (S.all memory)) 0 }
    {
        CopyingOutput {
            store: S::cleared(memory),
        }
    }

    // A function that does nothing, and no law of `Output`: `image` is the storage's word.
    /// A fact for proofs, what all memory holds after every call: the rows held, and else zeros; it does nothing.
    #[tactic(auto, using(crate::specs::laws::Held::rows_parts))]
    pub fn image(&self)
        ensures { S.all (S.memory self.now.store) ≡ S.image (S.sizes (S.memory self.now.store)) (map row_of (kept_pieces (S.kept self.now.store) (S.rows self.now.store) ++ pending_pieces (S.kept self.now.store) (S.rows self.now.store))) }
    {}
}

impl<S: Storage> Output for CopyingOutput<S> {
    type Memory = S::Memory;

    ghost kept = { λ s. kept_pieces (S.kept s.store) (S.rows s.store) };

    ghost pending = { λ s. pending_pieces (S.kept s.store) (S.rows s.store) };

    ghost terms = { λ s. record { rule = S.rule (S.memory s.store); base = None; taken = copied; sizes = S.sizes (S.memory s.store) } };

    ghost memory = { λ s. S.all (S.memory s.store) };

    ghost reading = { S.reading };

    ghost opened = { S.opened };

    fn rows(&self) -> usize {
        self.store.rows()
    }

    // A hint: without it the loop over rows calls this for each, and a null row counts 105 instructions in place of 75.
    #[inline]
    #[tactic(auto, using(crate::specs::laws::Held::rows_parts))]
    fn add(&mut self, piece: Piece<'_>) -> Result<(), Fault> {
        self.store.add(piece.text)
    }

    #[tactic(auto, using(crate::specs::laws::Held::all_kept))]
    fn keep_pending(&mut self) {
        self.store.keep();
    }

    fn drop_pending(&mut self) {
        self.store.cut();
    }

    #[tactic(auto, using(crate::specs::laws::Held::rows_whole))]
    fn finish(self) -> (Counts, S::Memory)
        ensures reading { S.reading result.1 result.0 ≡ map row_of (kept_pieces (S.kept self.store) (S.rows self.store)) }
        ensures rows { result.0.rows ≡ length (kept_pieces (S.kept self.store) (S.rows self.store)) }
        ensures nulls { result.0.nulls ≡ nulls_in (map row_of (kept_pieces (S.kept self.store) (S.rows self.store))) }
        ensures counts { result.0 ≡ S.counts (map row_of (kept_pieces (S.kept self.store) (S.rows self.store))) }
        ensures accepted { S.opened result.1 result.0 ≡ None }
        ensures memory { S.all result.1 ≡ S.image (S.sizes (S.memory self.store)) (map row_of (kept_pieces (S.kept self.store) (S.rows self.store))) }
    {
        let CopyingOutput { mut store } = self;
        store.cut();
        store.give_back()
    }

    ghost faithful = { λ s p h. refl };

    ghost fixed = { λ a b sizes kept pending. S.imaged a.store ∙ (ap (λ x. S.image x (S.rows a.store)) sizes ∙ (ap (S.image (S.sizes (S.memory b.store))) (held_same (S.kept a.store) (S.kept b.store) (S.rows a.store) (S.rows b.store) kept pending) ∙ sym (S.imaged b.store))) };

    ghost refusals = { λ s rows row. S.refusals (S.memory s.store) rows row };
}
