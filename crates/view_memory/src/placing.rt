//! Where a text goes, and whether it may.
ghost use Rattle.std.specs.Prelude.{◌≡◌, ◌&&◌, length, nat_le, nat_lt};
ghost use Rattle.source.specs.Verdicts.{fault_of};
ghost use Rattle.std.specs.Option.{option_map};
ghost use Rattle.view_memory.specs.Fillings.{held_rows};
ghost use Rattle.view_memory.specs.Layout.{buffer_for, buffers_of, filled, offset_for, opens};
ghost use Rattle.view_memory.specs.Memories.{rule_of};
ghost use Rattle.view_memory.specs.Rule.{capacity, end_capacity, text_verdict};

use crate::filled::Filled;
use fault::Fault;
use view_cells::cells::SHORT;

/// A buffer that holds several texts holds at most so many bytes; a longer text has one of its own.
const BUFFER_BYTES: usize = 8192;

/// A view's length, and a buffer's number, is a signed 32-bit number.
const LARGEST: usize = 2147483647;

impl Filled<'_> {
    /// Whether there is room for a row more. No product may wrap.
    fn has_room(&self) -> bool
        ensures { result ≡ nat_lt self.now.held.rows (capacity (length self.now.memory.views.now) (length self.now.memory.validity.now)) }
    {
        self.held.rows < self.memory.views.len() / 16
            && self.held.rows / 8 < self.memory.validity.len()
    }

    /// The bytes in the last buffer.
    fn filled(&self) -> usize
        ensures { result ≡ filled (buffers_of (held_rows self.now)) }
    {
        if self.held.buffers <= 1 {
            return self.held.value_bytes;
        }
        self.held.value_bytes - self.memory.ends[self.held.buffers - 2] as usize
    }

    /// Whether a text opens a new buffer.
    fn opens(&self, len: usize) -> bool
        ensures { result ≡ opens (buffers_of (held_rows self.now)) len }
    {
        if self.held.buffers == 0 {
            return true;
        }
        let filled = self.filled();
        filled > BUFFER_BYTES || len > BUFFER_BYTES - filled
    }

    /// The buffer and the offset in it for a text.
    pub(crate) fn place(&self, len: usize) -> (usize, usize)
        ensures buffer { result.0 ≡ buffer_for (buffers_of (held_rows self.now)) len }
        ensures offset { result.1 ≡ offset_for (buffers_of (held_rows self.now)) len }
    {
        if self.opens(len) {
            return (self.held.buffers, 0);
        }
        (self.held.buffers - 1, self.filled())
    }

    /// Whether a text opens a new buffer that there is no end for.
    fn lacks_ends(&self, len: usize) -> bool
        ensures { result ≡ (opens (buffers_of (held_rows self.now)) len && nat_le (end_capacity (length self.now.memory.ends.now)) (length (buffers_of (held_rows self.now)).ends)) }
    {
        self.opens(len) && self.held.buffers >= self.memory.ends.len().min(LARGEST)
    }

    /// Refuses a text, where there is room for its view.
    fn check_text(&self, len: usize) -> Result<(), Fault>
        ensures { fault_of result ≡ text_verdict (end_capacity (length self.now.memory.ends.now)) (length self.now.memory.bytes.now) (buffers_of (held_rows self.now)) len }
    {
        if len > LARGEST {
            return Err(Fault::TooLong { row: 0 });
        }
        if len <= SHORT {
            return Ok(());
        }
        if self.lacks_ends(len) {
            return Err(Fault::EndsFull { row: 0 });
        }
        if len > self.memory.bytes.len() - self.held.value_bytes {
            return Err(Fault::BytesFull { row: 0 });
        }
        Ok(())
    }

    /// Refuses a coming row.
    pub(crate) fn check(&self, text: Option<&str>) -> Result<(), Fault>
        ensures { fault_of result ≡ rule_of self.now.memory (held_rows self.now) (option_map (λ x. x.now) text.entry) }
    {
        if !self.has_room() {
            return Err(Fault::RowsFull { row: 0 });
        }
        match text {
            None => Ok(()),
            Some(text) => self.check_text(text.len()),
        }
    }
}
