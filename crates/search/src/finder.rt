//! The searcher that goes by the delimiter's length.
ghost use Rattle.std.specs.Prelude.{◌≡◌};
ghost use Rattle.search.specs.Sought.{sought};
ghost use Rattle.search.specs.declared.finder.Finder.TheVariants.{Byte, Text};
ghost use Rattle.search.specs.laws.OneByte.{byte_text};
ghost use Rattle.text.proofs.Cuts.{well_formed_had};

use crate::Searcher;
use crate::one_byte::OneByte;
use crate::plain::Plain;

/// Any text as a delimiter, sought by the searcher for one byte where it has one, and else by the plain one.
#[derive(Clone, Copy)]
pub enum Finder<'a> {
    Byte(OneByte),
    Text(Plain<'a>),
}

impl<'a> Finder<'a> {
    /// The searcher for a text.
    pub fn new(delimiter: &'a str) -> Self
        ensures { sought result ≡ delimiter.now }
    {
        match OneByte::new(delimiter) {
            Some(one) => Finder::Byte(one),
            None => Finder::Text(Plain::new(delimiter)),
        }
    }
}

impl<'a> Searcher for Finder<'a> {
    ghost delimiter = { sought };

    ghost texts = { elim [ Byte one ↦ byte_text one.byte one.ascii | Text plain ↦ well_formed_had plain.delimiter.now plain.text ] };

    fn len(&self) -> usize {
        match self {
            Finder::Byte(one) => one.len(),
            Finder::Text(plain) => plain.len(),
        }
    }

    fn find(&self, text: &[u8]) -> Option<usize> {
        match self {
            Finder::Byte(one) => one.find(text),
            Finder::Text(plain) => plain.find(text),
        }
    }

    fn rfind(&self, text: &[u8]) -> Option<usize> {
        match self {
            Finder::Byte(one) => one.rfind(text),
            Finder::Text(plain) => plain.rfind(text),
        }
    }
}
