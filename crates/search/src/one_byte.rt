//! The searcher for a delimiter of one byte: one pass over the text.
ghost use Rattle.std.specs.Prelude.{◌≡◌, ◌<◌, [], ◌∷◌};
ghost use Rattle.std.specs.Option.{option_map};
ghost use Rattle.search.specs.Places.{if_one_byte};
ghost use Rattle.search.specs.laws.OneByte.{byte_text};

use crate::Searcher;

/// A one-byte text is an ASCII character.
#[derive(Clone, Copy)]
pub struct OneByte {
    pub(crate) byte: u8,
    ghost ascii: { byte < 128 },
}

impl OneByte {
    /// The searcher for a text of one byte; nothing for any other text.
    pub fn new(delimiter: &str) -> Option<OneByte>
        ensures { option_map (λ s. s.byte ∷ []) result ≡ if_one_byte delimiter.now }
    {
        match delimiter.as_bytes() {
            [byte] => Some(OneByte { byte: *byte }),
            _ => None,
        }
    }
}

impl Searcher for OneByte {
    ghost delimiter = { λ s. s.byte ∷ [] };

    ghost texts = { λ s. byte_text s.byte s.ascii };

    fn len(&self) -> usize {
        1
    }

    fn find(&self, text: &[u8]) -> Option<usize> {
        text.iter().position(|byte| *byte == self.byte)
    }

    fn rfind(&self, text: &[u8]) -> Option<usize> {
        text.iter().rposition(|byte| *byte == self.byte)
    }
}
