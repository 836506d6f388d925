//! The memory that an output writes to.
ghost use Rattle.std.specs.Prelude.{◌≡◌, ◌+◌, ◌-◌, ◌/◌, ◌%◌, ◌^◌, ◌<◌, ◌≤◌, length, map, pos, replicate, slice_index, slice_set};
ghost use Rattle.std.proofs.Math.Seq.{paste};
ghost use Rattle.offset_output.specs.Memories.{SameSizes, capacity_of};
ghost use Rattle.writing.specs.Bitmaps.{marked};
ghost use Rattle.writing.specs.Padding.{zeros};

use crate::width::OffsetWidth;
use output::Counts;
use writing::bits::{mark, unmark};
use writing::bytes::{put_text, wipe};

/// Lent memory. The output that it is given to clears it.
pub struct Memory<'a, W: OffsetWidth> {
    pub offsets: &'a mut [W],
    pub values: &'a mut [u8],
    pub validity: &'a mut [u8],
}

// That the sizes stay is a clause of each writer: it is of the old value and the new, which an invariant cannot say.
impl<W: OffsetWidth> Memory<'_, W> {
    /// Writes a text behind the rows held: the offset of its end, its bytes and its bit; and grows what the rows held take.
    // The counts are grown in place, and not answered anew: all five were copied for each row, and two change.
    pub(crate) fn write(&mut self, held: &mut Counts, text: &[u8], end: W)
        requires room { held.old.rows < capacity_of self.old }
        requires fits { held.old.value_bytes + length text.now ≤ length self.old.values.now }
        ensures sizes { SameSizes self.old self.new }
        ensures offsets { self.new.offsets.now ≡ slice_set self.old.offsets.now (held.old.rows + 1) end }
        ensures values { self.new.values.now ≡ paste self.old.values.now held.old.value_bytes text.now (length text.now) }
        ensures validity { self.new.validity.now ≡ marked self.old.validity.now held.old.rows }
        ensures counts { held.new ≡ record held.old { rows = held.old.rows + 1; value_bytes = held.old.value_bytes + length text.now } }
    {
        self.offsets[held.rows + 1] = end;
        put_text(self.values, held.value_bytes, text);
        mark(self.validity, held.rows);
        held.rows += 1;
        held.value_bytes += text.len();
    }

    /// Zeroes what the rows after the kept ones were written to, and nothing else.
    pub(crate) fn wipe_after(&mut self, kept: Counts, held: Counts)
        requires rows { kept.rows < held.rows }
        requires room { held.rows ≤ capacity_of self.old }
        requires bytes { kept.value_bytes ≤ held.value_bytes }
        requires fits { held.value_bytes ≤ length self.old.values.now }
        ensures sizes { SameSizes self.old self.new }
        ensures offsets { map W.Width.number self.new.offsets.now ≡ paste (map W.Width.number self.old.offsets.now) (kept.rows + 1) (replicate (held.rows - kept.rows) (pos 0)) (held.rows - kept.rows) }
        ensures values { self.new.values.now ≡ paste self.old.values.now kept.value_bytes (zeros (held.value_bytes - kept.value_bytes)) (held.value_bytes - kept.value_bytes) }
        ensures validity { self.new.validity.now ≡ paste (slice_set self.old.validity.now (kept.rows / 8) (slice_index self.old.validity.now (kept.rows / 8) % 2 ^ (kept.rows % 8))) (kept.rows / 8 + 1) (zeros ((held.rows - 1) / 8 + 1 - (kept.rows / 8 + 1))) ((held.rows - 1) / 8 + 1 - (kept.rows / 8 + 1)) }
    {
        wipe(self.offsets, kept.rows + 1, held.rows + 1, W::zero());
        wipe(self.values, kept.value_bytes, held.value_bytes, 0);
        unmark(self.validity, kept.rows);
        wipe(self.validity, kept.rows / 8 + 1, (held.rows - 1) / 8 + 1, 0);
    }

    /// Zeroes all.
    pub(crate) fn clear(&mut self)
        ensures sizes { SameSizes self.old self.new }
        ensures offsets { map W.Width.number self.new.offsets.now ≡ replicate (length self.old.offsets.now) (pos 0) }
        ensures values { self.new.values.now ≡ zeros (length self.old.values.now) }
        ensures validity { self.new.validity.now ≡ zeros (length self.old.validity.now) }
    {
        let size = self.offsets.len();
        wipe(self.offsets, 0, size, W::zero());
        self.values.fill(0);
        self.validity.fill(0);
    }
}
