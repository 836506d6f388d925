//! Views of 16 bytes.
ghost use Rattle.std.specs.Prelude.{◌≡◌, ◌+◌, ◌≤◌, length};
ghost use Rattle.views.specs.Layout.{buffer, offset, short_rule, size, word};

/// A view: a length, and then a short text itself, or the front of a long one and where it lies.
#[derive(Clone, Copy)]
pub(crate) struct View<'a> {
    pub(crate) bytes: &'a [u8],
    ghost len: { length bytes.now ≡ 16 },
}

impl<'a> View<'a> {
    /// The 32-bit little-endian number at a place.
    #[tactic(auto, unfolding(crate::specs::Layout::word))]
    fn word(&self, at: usize) -> u32
        requires { at + 4 ≤ 16 }
        ensures { result ≡ word self.now.bytes.now at }
    {
        u32::from_le_bytes([
            self.bytes[at],
            self.bytes[at + 1],
            self.bytes[at + 2],
            self.bytes[at + 3],
        ])
    }

    /// The length of the text.
    pub(crate) fn size(&self) -> u32
        ensures { result ≡ size self.now.bytes.now }
    {
        self.word(0)
    }

    /// The number of a long text's buffer.
    pub(crate) fn buffer(&self) -> u32
        ensures { result ≡ buffer self.now.bytes.now }
    {
        self.word(8)
    }

    /// Where a long text lies in its buffer.
    pub(crate) fn offset(&self) -> u32
        ensures { result ≡ offset self.now.bytes.now }
    {
        self.word(12)
    }

    /// Whether zeros follow a short text.
    pub(crate) fn is_padded(&self) -> bool
        requires { size self.now.bytes.now ≤ 12 }
        ensures { result ≡ short_rule self.now.bytes.now }
    {
        self.bytes[4 + self.size() as usize..]
            .iter()
            .all(|byte| *byte == 0)
    }
}
