//! What is written to the memory, and zeroed in it again.
ghost use Rattle.std.specs.Prelude.{◌≡◌, ◌+◌, ◌-◌, ◌*◌, ◌/◌, ◌%◌, ◌^◌, ◌<◌, ◌≤◌, [], length, slice_index, slice_set};
ghost use Rattle.std.proofs.Math.Seq.{paste};
ghost use Rattle.view_cells.specs.Views.{view_of};
ghost use Rattle.view_memory.specs.Holding.{ends_cut};
ghost use Rattle.view_memory.specs.Memories.{Has, SameSizes};
ghost use Rattle.view_memory.specs.Rule.{capacity};
ghost use Rattle.writing.specs.Bitmaps.{marked};
ghost use Rattle.writing.specs.Padding.{zeros};

use crate::memory::Memory;
use output::Counts;
use view_cells::cells::put_view;
use writing::bits::{mark, unmark};
use writing::bytes::{put_text, wipe};

/// Takes the ends back to those of the rows kept: the last of them may have grown since.
fn cut_ends(ends: &mut [u64], kept: Counts, held: Counts)
    requires order { kept.buffers ≤ held.buffers }
    requires within { held.buffers ≤ length ends.old }
    ensures { ends.new ≡ ends_cut ends.old kept.buffers held.buffers kept.value_bytes }
{
    wipe(ends, kept.buffers, held.buffers, 0);
    if kept.buffers > 0 {
        ends[kept.buffers - 1] = kept.value_bytes as u64;
    }
}

// That the sizes stay is a clause of each writer: it is of the old value and the new, which an invariant cannot say.
impl Memory<'_> {
    /// A null behind the rows held writes nothing: what is not written is zero. Answers what the rows take then.
    pub(crate) fn write_null(&self, held: Counts) -> Counts
        requires room { held.rows < capacity (length self.now.views.now) (length self.now.validity.now) }
        requires nulls { held.nulls ≤ held.rows }
        ensures { result ≡ record held { rows = held.rows + 1; nulls = held.nulls + 1 } }
    {
        Counts {
            rows: held.rows + 1,
            nulls: held.nulls + 1,
            ..held
        }
    }

    /// Writes a text behind the rows held, into its view. Answers what the rows take then.
    pub(crate) fn write_short(&mut self, held: Counts, text: &[u8]) -> Counts
        requires room { held.rows < capacity (length self.old.views.now) (length self.old.validity.now) }
        requires short { length text.now ≤ 12 }
        ensures sizes { SameSizes self.old self.new }
        ensures views { self.new.views.now ≡ paste self.old.views.now (16 * held.rows) (view_of text.now 0 0) 16 }
        ensures validity { self.new.validity.now ≡ marked self.old.validity.now held.rows }
        ensures ends { self.new.ends.now ≡ self.old.ends.now }
        ensures bytes { self.new.bytes.now ≡ self.old.bytes.now }
        ensures counts { result ≡ record held { rows = held.rows + 1 } }
    {
        put_view(self.views, 16 * held.rows, text, 0, 0);
        mark(self.validity, held.rows);
        Counts {
            rows: held.rows + 1,
            ..held
        }
    }

    /// The same of a longer text, into a buffer at an offset.
    pub(crate) fn write_long(
        &mut self,
        held: Counts,
        text: &[u8],
        buffer: usize,
        offset: usize,
    ) -> Counts
        requires room { held.rows < capacity (length self.old.views.now) (length self.old.validity.now) }
        requires longs { held.long_views ≤ held.rows }
        requires small { length text.now ≤ 2147483647 }
        requires fits { held.value_bytes + length text.now ≤ length self.old.bytes.now }
        requires buffer { (buffer < length self.old.ends.now) × (buffer < 2147483647) }
        requires offset { offset ≤ 2147483647 }
        ensures sizes { SameSizes self.old self.new }
        ensures views { self.new.views.now ≡ paste self.old.views.now (16 * held.rows) (view_of text.now buffer offset) 16 }
        ensures validity { self.new.validity.now ≡ marked self.old.validity.now held.rows }
        ensures ends { self.new.ends.now ≡ slice_set self.old.ends.now buffer (held.value_bytes + length text.now) }
        ensures bytes { self.new.bytes.now ≡ paste self.old.bytes.now held.value_bytes text.now (length text.now) }
        ensures counts { result ≡ record { rows = held.rows + 1; nulls = held.nulls; value_bytes = held.value_bytes + length text.now; buffers = buffer + 1; long_views = held.long_views + 1 } }
    {
        let end = held.value_bytes + text.len();
        put_text(self.bytes, held.value_bytes, text);
        self.ends[buffer] = end as u64;
        put_view(
            self.views,
            16 * held.rows,
            text,
            buffer as u32,
            offset as u32,
        );
        mark(self.validity, held.rows);
        Counts {
            rows: held.rows + 1,
            value_bytes: end,
            buffers: buffer + 1,
            long_views: held.long_views + 1,
            ..held
        }
    }

    /// Zeroes what the rows behind those kept were written to, and takes the ends back.
    pub(crate) fn wipe_after(&mut self, kept: Counts, held: Counts)
        requires rows { kept.rows < held.rows }
        requires room { held.rows ≤ capacity (length self.old.views.now) (length self.old.validity.now) }
        requires buffers { kept.buffers ≤ held.buffers }
        requires few { held.buffers ≤ length self.old.ends.now }
        requires bytes { kept.value_bytes ≤ held.value_bytes }
        requires fits { held.value_bytes ≤ length self.old.bytes.now }
        ensures sizes { SameSizes self.old self.new }
        ensures views { self.new.views.now ≡ paste self.old.views.now (16 * kept.rows) (zeros (16 * held.rows - 16 * kept.rows)) (16 * held.rows - 16 * kept.rows) }
        ensures validity { self.new.validity.now ≡ paste (slice_set self.old.validity.now (kept.rows / 8) (slice_index self.old.validity.now (kept.rows / 8) % 2 ^ (kept.rows % 8))) (kept.rows / 8 + 1) (zeros ((held.rows - 1) / 8 + 1 - (kept.rows / 8 + 1))) ((held.rows - 1) / 8 + 1 - (kept.rows / 8 + 1)) }
        ensures ends { self.new.ends.now ≡ ends_cut self.old.ends.now kept.buffers held.buffers kept.value_bytes }
        ensures bytes { self.new.bytes.now ≡ paste self.old.bytes.now kept.value_bytes (zeros (held.value_bytes - kept.value_bytes)) (held.value_bytes - kept.value_bytes) }
    {
        wipe(self.views, 16 * kept.rows, 16 * held.rows, 0);
        unmark(self.validity, kept.rows);
        wipe(self.validity, kept.rows / 8 + 1, (held.rows - 1) / 8 + 1, 0);
        cut_ends(self.ends, kept, held);
        wipe(self.bytes, kept.value_bytes, held.value_bytes, 0);
    }

    /// Zeroes all.
    pub(crate) fn clear(&mut self)
        ensures sizes { SameSizes self.old self.new }
        ensures holds { Has self.new [] }
    {
        self.views.fill(0);
        self.validity.fill(0);
        self.ends.fill(0);
        self.bytes.fill(0);
    }
}
