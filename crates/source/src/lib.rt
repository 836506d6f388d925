//! Sources: what rows of text, and positions beside them, are read from. The traits say what these mean; code above is generic over them.
//! Here are windows, and one row repeated; the columns are sources too.
#![tactic(auto)]

ghost use Rattle.std.specs.Prelude.{◌≡◌, List, length, ℤ, None, Option, slice_index_or};
ghost use Rattle.source.specs.Rows.{Row};
ghost use Rattle.std.specs.Option.{option_map};

pub mod repeated;
mod repeated_positions;
pub mod window;

/// A source means a list of rows, each null or a text. A question changes nothing.
pub trait Source<'a> {
    ghost listed: { Self → List Row };

    /// The number of rows.
    fn rows(&self) -> usize
        ensures { result ≡ length (listed self.now) };

    /// The text of a row; nothing where the row is null or past the end.
    fn text(&self, row: usize) -> Option<&'a str>
        ensures { option_map (λ x. x.now) result ≡ slice_index_or (listed self.now) row None };
}

/// Positions mean a list of rows, each null or a number. A question changes nothing.
// A trait of its own: a row of a source means the bytes that its text lends, a row of positions the number itself.
pub trait Positions {
    ghost numbered: { Self → List (Option ℤ) };

    /// The number of rows.
    fn rows(&self) -> usize
        ensures { result ≡ length (numbered self.now) };

    /// The number at a row; nothing where the row is null or past the end.
    fn position(&self, row: usize) -> Option<i64>
        ensures { result ≡ slice_index_or (numbered self.now) row None };
}
