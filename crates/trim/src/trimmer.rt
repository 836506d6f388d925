//! The three trims, chosen at compile time.
ghost use Rattle.std.specs.Prelude.{◌≡◌, Bool, true, false, [], ◌∷◌};
ghost use Rattle.trim.specs.Rule.{Trims, Determined, Untouched, Emptied, Anchored};
ghost use Rattle.trim.specs.Trim.{trimmed};

use crate::sides::{leading, trailing};

/// Which ends of a row lose the characters of a set.
pub trait Trimmer {
    ghost LEFT: { Bool };

    const LEFT: bool;

    ghost RIGHT: { Bool };

    const RIGHT: bool;

    /// What remains of `input`, and its place there in bytes, without the characters of `pattern`.
    fn trim<'a>(input: &'a str, pattern: &str) -> (&'a str, u64)
        ensures answer { (result.0.now, result.1) ≡ trimmed LEFT RIGHT pattern.now input.now }
        ensures rule { Trims LEFT RIGHT pattern.now input.now result.0.now result.1 }
    {
        // Both are read here, so that an edit that swaps them is refused for what it means, and not for its form.
        let (left, right) = (Self::LEFT, Self::RIGHT);
        let start = if left { leading(input, pattern) } else { 0 };
        let rest = &input[start..];
        let tail = if right { trailing(rest, pattern) } else { 0 };
        (&rest[0..rest.len() - tail], start as u64)
    }

    /// The same where no characters are given, which means a space.
    fn trim_spaces<'a>(input: &'a str) -> (&'a str, u64)
        ensures answer { (result.0.now, result.1) ≡ trimmed LEFT RIGHT (32 ∷ []) input.now }
        ensures rule { Trims LEFT RIGHT (32 ∷ []) input.now result.0.now result.1 }
    {
        Self::trim(input, " ")
    }
}

/// Trims the start.
#[derive(Clone, Copy)]
pub struct TrimLeft;

impl Trimmer for TrimLeft {
    ghost LEFT = { true };

    const LEFT: bool = true;

    ghost RIGHT = { false };

    const RIGHT: bool = false;
}

/// Trims the end.
#[derive(Clone, Copy)]
pub struct TrimRight;

impl Trimmer for TrimRight {
    ghost LEFT = { false };

    const LEFT: bool = false;

    ghost RIGHT = { true };

    const RIGHT: bool = true;
}

/// Trims the start and then the end.
#[derive(Clone, Copy)]
pub struct TrimBoth;

impl Trimmer for TrimBoth {
    ghost LEFT = { true };

    const LEFT: bool = true;

    ghost RIGHT = { true };

    const RIGHT: bool = true;
}

/// The rule leaves one answer. An empty set removes nothing, both ends together remove the whole of a row that is made
/// of the set's characters, and a trim of the end alone keeps the place 0.
pub fn trim_laws()
    ensures determined { Determined }
    ensures untouched { Untouched }
    ensures emptied { Emptied }
    ensures anchored { Anchored }
{}
