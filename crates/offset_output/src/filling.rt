//! Rows put into memory, and taken out of it again.
ghost use Rattle.std.specs.Prelude.{◌≡◌, ◌+◌, ◌<◌, ◌≤◌, [], ◌∷◌, ◌++◌, length, pos, Some, None, nat_lt, refl};
ghost use Rattle.columns.specs.Offsets.{rows_in, verdict};
ghost use Rattle.offset_output.specs.Fillings.{held_rows};
ghost use Rattle.offset_output.specs.laws.Filled.{faults, shown};
ghost use Rattle.offset_output.specs.Memories.{SameSizes, capacity_of, counted, image, lists_of, memory_of, rule_of, sizes_of};

use crate::filled::Filled;
use crate::memory::Memory;
use crate::width::OffsetWidth;
use copying::storage::Storage;
use fault::Fault;
use output::Counts;

// That there is room is asked of each writer: it is no invariant, since memory may be full. That sizes and `kept` stay is what a writer
// leaves of the old value, which an invariant cannot say.
impl<W: OffsetWidth> Filled<'_, W> {
    /// Whether there is memory for a row more. Eight times the bitmap's bytes may wrap, so the capacity itself is not computed.
    fn has_room(&self) -> bool
        ensures { result ≡ nat_lt self.now.held.rows (capacity_of self.now.memory) }
    {
        self.held.rows < self.memory.offsets.len().saturating_sub(1)
            && self.held.rows / 8 < self.memory.validity.len()
    }

    /// Writes a null: it ends where the row before it does.
    fn put_null(&mut self)
        requires { self.old.held.rows < capacity_of self.old.memory }
        ensures sizes { SameSizes self.old.memory self.new.memory }
        ensures kept { self.new.kept ≡ self.old.kept }
        ensures rows { held_rows self.new ≡ held_rows self.old ++ None ∷ [] }
    {
        let rows = self.held.rows;
        self.memory.offsets[rows + 1] = self.memory.offsets[rows];
        self.held.rows = rows + 1;
        self.held.nulls += 1;
    }

    /// Writes a text; `end` is the offset of its end.
    fn put_text(&mut self, text: &str, end: W)
        requires room { self.old.held.rows < capacity_of self.old.memory }
        requires fits { self.old.held.value_bytes + length text.now ≤ length self.old.memory.values.now }
        requires end { W.Width.number end ≡ pos (self.old.held.value_bytes + length text.now) }
        ensures sizes { SameSizes self.old.memory self.new.memory }
        ensures kept { self.new.kept ≡ self.old.kept }
        ensures rows { held_rows self.new ≡ held_rows self.old ++ Some text.now ∷ [] }
    {
        self.memory.write(&mut self.held, text.as_bytes(), end);
    }
}

// Its short functions stand in the other layout too: one `Filled` over any memory would need the invariant as a trait's member, a trait
// more between storage and memory, which is no plainer.
impl<'a, W: OffsetWidth> Storage for Filled<'a, W> {
    type Memory = Memory<'a, W>;

    ghost rows = { held_rows };

    ghost kept = { λ s. s.kept.rows };

    ghost memory = { λ s. s.memory };

    ghost rule = { rule_of W.Width.LARGEST };

    ghost sizes = { sizes_of };

    ghost all = { memory_of W.Width.number };

    ghost image = { image };

    ghost counts = { counted };

    ghost reading = { λ m c. rows_in c.rows (lists_of W.Width.number m) };

    ghost opened = { λ m c. verdict c.rows (lists_of W.Width.number m) };

    fn cleared(lent: Memory<'a, W>) -> Filled<'a, W> {
        let mut memory = lent;
        memory.clear();
        Filled {
            memory,
            kept: Counts::default(),
            held: Counts::default(),
        }
    }

    fn rows(&self) -> usize {
        self.kept.rows
    }

    fn add(&mut self, text: Option<&str>) -> Result<(), Fault> {
        if !self.has_room() {
            return Err(Fault::RowsFull { row: 0 });
        }
        let Some(text) = text else {
            self.put_null();
            return Ok(());
        };
        let start = self.held.value_bytes;
        let end = W::end(start, text.len()).ok_or(Fault::TooLong { row: 0 })?;
        if text.len() > self.memory.values.len() - start {
            return Err(Fault::BytesFull { row: 0 });
        }
        self.put_text(text, end);
        Ok(())
    }

    fn keep(&mut self) {
        self.kept = self.held;
    }

    /// Touches only what the rows behind were written to.
    fn cut(&mut self) {
        if self.kept.rows < self.held.rows {
            self.memory.wipe_after(self.kept, self.held);
            self.held = self.kept;
        }
    }

    fn give_back(self) -> (Counts, Memory<'a, W>) {
        let Filled {
            memory,
            kept: _,
            held,
        } = self;
        (held, memory)
    }

    ghost within = { λ s. s.keeps.first };

    ghost imaged = { λ s. shown W.Width.number s.memory s.held s.has };

    ghost refusals = { λ m before row. faults W.Width.LARGEST m before row };

    ghost counted = { λ rows. (refl, refl) };
}
