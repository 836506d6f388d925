//! Buffers, and the views that point into them.
ghost use Rattle.std.specs.Prelude.{◌≡◌, ◌<◌, true, length, IfOk, None};
ghost use Rattle.source.specs.Verdicts.{fault_of};
ghost use Rattle.views.specs.Layout.{buffer_start, fits, in_buffer, part, place, size, text};
ghost use Rattle.views.specs.Reading.{held};
ghost use Rattle.views.specs.Verdict.{end_holds, ends_fault, view_fault};

use crate::lent::Buffers;
use crate::view::View;
use fault::Fault;
use text::well_formed;

impl<'a> Buffers<'a> {
    /// Where a buffer begins.
    #[tactic(auto, using(std::proofs::lemmas::Bool::Decides::nat_tests), unfolding(crate::specs::Layout::buffer_start))]
    fn start(&self, buffer: usize) -> usize
        requires { buffer < length self.now.ends.now }
        ensures { result ≡ buffer_start self.now.ends.now buffer }
    {
        if buffer == 0 {
            0
        } else {
            self.ends[buffer - 1] as usize
        }
    }

    /// Whether a buffer's end is in its place.
    #[tactic(auto, using(std::proofs::lemmas::Bool::Decides::nat_tests), unfolding(crate::specs::Verdict::end_holds))]
    fn end_holds(&self, buffer: usize) -> bool
        requires { buffer < length self.now.ends.now }
        ensures { result ≡ end_holds (held self.now) buffer }
    {
        let end = self.ends[buffer] as usize;
        self.start(buffer) <= end && end <= self.bytes.len()
    }

    /// Refuses ends that are out of place.
    #[tactic(auto, using(source::proofs::Faults::first_fault_found), unfolding(crate::specs::Verdict::end_fault))]
    pub(crate) fn check(self) -> Result<CheckedBuffers<'a>, Fault>
        ensures answer { fault_of result ≡ ends_fault (held self.entry) }
        ensures buffers { IfOk result (λ c. c.buffers ≡ self.entry) }
    {
        // By numbers, which buffers go by. With `try_for_each` (tried in `columns`) it was not proved that each number is one that the call may be asked for.
        for buffer in 0..self.ends.len() {
            if !self.end_holds(buffer) {
                return Err(Fault::BufferEnd);
            }
        }
        Ok(CheckedBuffers { buffers: self })
    }

    /// Whether the text of a long view lies in its buffer.
    fn holds(&self, view: View) -> bool
        ensures { result ≡ in_buffer (held self.now) view.entry.bytes.now }
    {
        let buffer = view.buffer() as usize;
        if buffer >= self.ends.len() {
            return false;
        }
        let room = (self.ends[buffer] as usize).saturating_sub(self.start(buffer));
        let end = view.offset() as usize + view.size() as usize;
        end <= room && end <= 2147483647
    }
}

/// Buffers whose ends are in place.
#[derive(Clone, Copy)]
pub(crate) struct CheckedBuffers<'a> {
    pub(crate) buffers: Buffers<'a>,
    ghost ends: { ends_fault (held buffers) ≡ None },
}

impl<'a> CheckedBuffers<'a> {
    /// The text of a long view.
    #[tactic(auto, using(crate::proofs::Views::in_place))]
    fn long_text(&self, view: View) -> &'a [u8]
        requires { in_buffer (held self.now.buffers) view.bytes.now ≡ true }
        ensures value { result.now ≡ part (place (held self.now.buffers) view.entry.bytes.now) (size view.entry.bytes.now) self.now.buffers.bytes.now }
        ensures len { length result.now ≡ size view.entry.bytes.now }
    {
        let place = self.buffers.start(view.buffer() as usize) + view.offset() as usize;
        &self.buffers.bytes[place..place + view.size() as usize]
    }

    /// Whether a view keeps the rules.
    #[tactic(auto, using(crate::proofs::Views::fits_not, crate::proofs::Views::fits_short, crate::proofs::Views::fits_long, crate::proofs::Views::fits_compared))]
    fn fits(&self, view: View) -> bool
        ensures { result ≡ fits (held self.now.buffers) view.entry.bytes.now }
    {
        let size = view.size();
        if size > 2147483647 {
            return false;
        }
        if size <= 12 {
            return view.is_padded();
        }
        if !self.buffers.holds(view) {
            return false;
        }
        view.bytes[4..8] == self.long_text(view)[0..4]
    }

    /// The text of a view: a part of the view, or of the data bytes.
    #[tactic(auto, using(crate::proofs::Views::text_short, crate::proofs::Views::text_long, crate::proofs::Views::within_from_fits))]
    pub(crate) fn text(&self, view: View<'a>) -> &'a [u8]
        requires { fits (held self.now.buffers) view.bytes.now ≡ true }
        ensures { result.now ≡ text (held self.now.buffers) view.entry.bytes.now }
    {
        let size = view.size() as usize;
        if size <= 12 {
            &view.bytes[4..4 + size]
        } else {
            self.long_text(view)
        }
    }

    /// Refuses the view of a row where it breaks the rules or its text is not well-formed.
    pub(crate) fn check(&self, row: usize, view: View<'a>) -> Result<(), Fault>
        ensures { fault_of result ≡ view_fault (held self.now.buffers) row view.entry.bytes.now }
    {
        if !self.fits(view) {
            return Err(Fault::View { row });
        }
        if !well_formed(self.text(view)) {
            return Err(Fault::Malformed { row });
        }
        Ok(())
    }
}
