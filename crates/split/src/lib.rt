//! `split_part` of one row: the field at a position, with its place in the row.
//! Generic over the searcher, which means the delimiter.
#![tactic(auto)]

ghost use Rattle.std.specs.Prelude.{◌≡◌, ◌≤◌, length};
ghost use Rattle.std.specs.Option.{option_map};
ghost use Rattle.std.specs.List.{slice_get};
ghost use Rattle.split.specs.Fields.{answered, field_at, left_fields, part, right_fields};
ghost use Rattle.split.specs.Laws.{LowestFirst, HighestFirst, Rejoined, Uncut};

use fault::Fault;
use search::Searcher;

pub mod walk;

use walk::{before_occurrences, past_occurrences};

/// Finds the `n`th (0-based) field of `string`, and its place.
pub fn split_nth_finder<'a, F: Searcher>(
    string: &'a str,
    finder: &F,
    n: u64,
) -> Option<(&'a str, u64)>
    ensures { option_map part result ≡ slice_get (left_fields (F.delimiter finder.now) string.now) n }
{
    let bytes = string.as_bytes();
    let start = past_occurrences(bytes, finder, n)?;
    match finder.find(&bytes[start..]) {
        Some(pos) => Some((&string[start..start + pos], start as u64)),
        None => Some((&string[start..], start as u64)),
    }
}

// The twin of `split_nth_finder`: the two keep the Rust's names and differ in direction, not in a type, a size or a constant.
/// Like `split_nth_finder`, but `n` counts from the end, and so do the occurrences.
pub fn rsplit_nth_finder<'a, F: Searcher>(
    string: &'a str,
    finder: &F,
    n: u64,
) -> Option<(&'a str, u64)>
    ensures { option_map part result ≡ slice_get (right_fields (F.delimiter finder.now) string.now) n }
{
    let bytes = string.as_bytes();
    let end = before_occurrences(bytes, finder, n)?;
    match finder.rfind(&bytes[0..end]) {
        Some(pos) => {
            let start = pos + finder.len();
            Some((&string[start..end], start as u64))
        }
        None => Some((&string[0..end], 0)),
    }
}

/// The field at a position: 1 is the first, -1 the last. A field that is not there is empty, at place 0.
/// The laws say what occurrences and fields are.
pub fn split_part<'a, F: Searcher>(
    string: &'a str,
    finder: &F,
    position: i64,
) -> Result<(&'a str, u64), Fault>
    ensures answer { answered result ≡ field_at (F.delimiter finder.now) string.now position }
    ensures lowest_first { LowestFirst }
    ensures highest_first { HighestFirst }
    ensures rejoined { Rejoined }
    ensures uncut { Uncut }
{
    if position == 0 {
        return Err(Fault::ZeroPosition { row: 0 });
    }
    let n = position.unsigned_abs() - 1;
    let field = if position > 0 {
        split_nth_finder(string, finder, n)
    } else {
        rsplit_nth_finder(string, finder, n)
    };
    Ok(field.unwrap_or(("", 0)))
}
