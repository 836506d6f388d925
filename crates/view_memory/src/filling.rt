//! Rows put into memory, and taken out of it again.
ghost use Rattle.std.specs.Prelude.{◌≡◌, ◌<◌, ◌≤◌, [], ◌∷◌, ◌++◌, length, Some, None, refl};
ghost use Rattle.view_memory.specs.Fillings.{held_rows};
ghost use Rattle.view_memory.specs.laws.Filled.{faults, shown};
ghost use Rattle.view_memory.specs.Layout.{buffers_of};
ghost use Rattle.view_memory.specs.Memories.{SameSizes, column_of, counts_of, image, memory_of, rule_of, sizes_of};
ghost use Rattle.view_memory.specs.Rule.{capacity, end_capacity, text_verdict};
ghost use Rattle.views.specs.Layout.{rows_in};
ghost use Rattle.views.specs.Verdict.{verdict};

use crate::filled::Filled;
use crate::memory::Memory;
use copying::storage::Storage;
use fault::Fault;
use output::Counts;
use view_cells::cells::SHORT;

// That there is room is asked of each writer: it is no invariant, since memory may be full. That sizes and `kept` stay is what a writer
// leaves of the old value, which an invariant cannot say.
impl Filled<'_> {
    /// Puts a null behind the rows.
    fn put_null(&mut self)
        requires { self.old.held.rows < capacity (length self.old.memory.views.now) (length self.old.memory.validity.now) }
        ensures memory { self.new.memory ≡ self.old.memory }
        ensures kept { self.new.kept ≡ self.old.kept }
        ensures rows { held_rows self.new ≡ held_rows self.old ++ None ∷ [] }
    {
        self.held = self.memory.write_null(self.held);
    }

    /// Puts a text of up to 12 bytes behind the rows, into its view.
    fn put_short(&mut self, text: &str)
        requires room { self.old.held.rows < capacity (length self.old.memory.views.now) (length self.old.memory.validity.now) }
        requires short { length text.now ≤ 12 }
        ensures sizes { SameSizes self.old.memory self.new.memory }
        ensures kept { self.new.kept ≡ self.old.kept }
        ensures rows { held_rows self.new ≡ held_rows self.old ++ Some text.now ∷ [] }
    {
        self.held = self.memory.write_short(self.held, text.as_bytes());
    }

    /// Puts a longer text behind the rows, into a buffer.
    fn put_long(&mut self, text: &str)
        requires room { self.old.held.rows < capacity (length self.old.memory.views.now) (length self.old.memory.validity.now) }
        requires long { 12 < length text.now }
        requires may { text_verdict (end_capacity (length self.old.memory.ends.now)) (length self.old.memory.bytes.now) (buffers_of (held_rows self.old)) (length text.now) ≡ None }
        ensures sizes { SameSizes self.old.memory self.new.memory }
        ensures kept { self.new.kept ≡ self.old.kept }
        ensures rows { held_rows self.new ≡ held_rows self.old ++ Some text.now ∷ [] }
    {
        let (buffer, offset) = self.place(text.len());
        self.held = self
            .memory
            .write_long(self.held, text.as_bytes(), buffer, offset);
    }
}

// Its short functions stand in the other layout too: one `Filled` over any memory would need the invariant as a trait's member, a trait
// more between storage and memory, which is no plainer.
impl<'a> Storage for Filled<'a> {
    type Memory = Memory<'a>;

    ghost rows = { held_rows };

    ghost kept = { λ s. s.kept.rows };

    ghost memory = { λ s. s.memory };

    ghost rule = { rule_of };

    ghost sizes = { sizes_of };

    ghost all = { memory_of };

    ghost image = { image };

    ghost counts = { counts_of };

    ghost reading = { λ m c. rows_in c.rows (column_of m c) };

    ghost opened = { λ m c. verdict c.rows (column_of m c) };

    fn cleared(lent: Memory<'a>) -> Filled<'a> {
        let mut memory = lent;
        memory.clear();
        Filled {
            memory,
            kept: Counts::default(),
            held: Counts::default(),
        }
    }

    fn rows(&self) -> usize {
        self.kept.rows
    }

    fn add(&mut self, text: Option<&str>) -> Result<(), Fault> {
        self.check(text)?;
        match text {
            None => self.put_null(),
            Some(text) => {
                if text.len() <= SHORT {
                    self.put_short(text);
                } else {
                    self.put_long(text);
                }
            }
        }
        Ok(())
    }

    fn keep(&mut self) {
        self.kept = self.held;
    }

    /// Touches only what the rows behind were written to.
    fn cut(&mut self) {
        if self.kept.rows < self.held.rows {
            self.memory.wipe_after(self.kept, self.held);
            self.held = self.kept;
        }
    }

    fn give_back(self) -> (Counts, Memory<'a>) {
        let Filled {
            memory,
            kept: _,
            held,
        } = self;
        (held, memory)
    }

    ghost within = { λ s. s.keeps.first };

    ghost imaged = { λ s. shown s.memory (held_rows s) s.has };

    ghost refusals = { λ m before row. faults m before row };

    ghost counted = { λ rows. (refl, refl) };
}
