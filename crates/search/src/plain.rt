//! The plain searcher, for a delimiter of any length: every place is tried.
//! It stays the yardstick for any faster one.
ghost use Rattle.std.specs.Prelude.{◌≡◌};
ghost use Rattle.text.specs.Table.{WellFormed};
ghost use Rattle.text.proofs.Cuts.{well_formed_had};

use crate::Searcher;

/// Any text as a delimiter.
#[derive(Clone, Copy)]
pub struct Plain<'a> {
    pub(crate) delimiter: &'a str,
    ghost text: { ∥ WellFormed delimiter.now ∥₁ },
}

impl<'a> Plain<'a> {
    /// The searcher for a text.
    pub fn new(delimiter: &'a str) -> Self
        ensures { result.delimiter.now ≡ delimiter.now }
    {
        Plain { delimiter }
    }
}

impl<'a> Searcher for Plain<'a> {
    ghost delimiter = { λ s. s.delimiter.now };

    ghost texts = { λ s. well_formed_had s.delimiter.now s.text };

    fn len(&self) -> usize {
        self.delimiter.len()
    }

    fn find(&self, text: &[u8]) -> Option<usize> {
        let delimiter = self.delimiter.as_bytes();
        let m = delimiter.len();
        if m == 0 || text.len() < m {
            return None;
        }
        let last = text.len() - m;
        // A rule of the project wants this form: a labelled loop over places, left at the first byte that differs.
        'places: for at in 0..=last {
            for k in 0..m {
                if text[at + k] != delimiter[k] {
                    continue 'places;
                }
            }
            return Some(at);
        }
        None
    }

    fn rfind(&self, text: &[u8]) -> Option<usize> {
        let delimiter = self.delimiter.as_bytes();
        let m = delimiter.len();
        if m == 0 || text.len() < m {
            return None;
        }
        let last = text.len() - m;
        // The same form, for the same reason.
        'places: for at in (0..=last).rev() {
            for k in 0..m {
                if text[at + k] != delimiter[k] {
                    continue 'places;
                }
            }
            return Some(at);
        }
        None
    }
}
