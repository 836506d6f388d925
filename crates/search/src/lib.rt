//! Searchers: each finds one delimiter in any text, from the left and from the right.
//! The trait says what a searcher means; code above is generic over it and proved once.
#![tactic(auto)]

ghost use Rattle.std.specs.Prelude.{◌≡◌, ℕ, List, length};
ghost use Rattle.search.specs.Places.{lowest, highest, Lowest, Highest};
ghost use Rattle.text.specs.Table.{WellFormed};

pub mod finder;
pub mod one_byte;
pub mod plain;

/// A searcher means its delimiter, a well-formed text.
pub trait Searcher {
    ghost delimiter: { Self → List ℕ };

    /// The delimiter's length in bytes.
    fn len(&self) -> usize
        ensures { result ≡ length (delimiter self.now) };

    /// The lowest place where the delimiter stands in `text`; nothing where it stands nowhere or is empty.
    fn find(&self, text: &[u8]) -> Option<usize>
        ensures place { result ≡ lowest (delimiter self.now) text.now }
        ensures meaning { Lowest (delimiter self.now) text.now result };

    // The twin of `find`: the two keep the Rust's names and differ in direction, not in a type, a size or a constant.
    /// The highest place where the delimiter stands in `text`; nothing where it stands nowhere or is empty.
    fn rfind(&self, text: &[u8]) -> Option<usize>
        ensures place { result ≡ highest (delimiter self.now) text.now }
        ensures meaning { Highest (delimiter self.now) text.now result };

    // So code above may cut a text beside the delimiter.
    ghost texts: { (s : Self) → WellFormed (delimiter s) };
}
