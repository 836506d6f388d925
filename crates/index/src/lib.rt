//! `substr_index` of one row: what precedes or follows an occurrence of the delimiter.
//! Generic over the searcher, over the same occurrences that split uses.
#![tactic(auto)]

ghost use Rattle.std.specs.Prelude.{◌≡◌, length};
ghost use Rattle.std.specs.List.{slice_get};
ghost use Rattle.split.specs.Fields.{part};
ghost use Rattle.split.specs.Occurrences.{occurrences, occurrences_back};
ghost use Rattle.index.specs.Index.{after_place, before_place, index_at};
ghost use Rattle.index.specs.Joining.{IndexJoinsFields};

use occurrence::{occurrence_left, occurrence_right};
use search::Searcher;

pub mod occurrence;

/// What precedes occurrence `n` (0-based) from the left; the whole string where there are fewer.
pub fn substr_index_slice_finder<'a, F: Searcher>(
    string: &'a str,
    finder: &F,
    n: u64,
) -> (&'a str, u64)
    ensures { part result ≡ before_place string.now (slice_get (occurrences (F.delimiter finder.now) string.now) n) }
{
    match occurrence_left(string.as_bytes(), finder, n) {
        Some(pos) => (&string[0..pos], 0),
        None => (string, 0),
    }
}

// The twin of `substr_index_slice_finder`: the two keep the Rust's names and differ in direction, not in a type, a size or a constant.
/// What follows occurrence `n` (0-based) from the right; the whole string where there are fewer.
pub fn substr_index_rslice_finder<'a, F: Searcher>(
    string: &'a str,
    finder: &F,
    n: u64,
) -> (&'a str, u64)
    ensures { part result ≡ after_place (F.delimiter finder.now) string.now (slice_get (occurrences_back (F.delimiter finder.now) string.now) n) }
{
    match occurrence_right(string.as_bytes(), finder, n) {
        Some(pos) => {
            let start = pos + finder.len();
            (&string[start..], start as u64)
        }
        None => (string, 0),
    }
}

/// What precedes occurrence `count` from the left, or follows occurrence `-count` from the right,
/// with its place; empty at place 0 for a count of 0 or an empty delimiter.
pub fn substr_index<'a, F: Searcher>(string: &'a str, finder: &F, count: i64) -> (&'a str, u64)
    ensures answer { part result ≡ index_at (F.delimiter finder.now) string.now count }
    ensures fields { IndexJoinsFields }
{
    if count == 0 || finder.len() == 0 {
        return ("", 0);
    }
    let n = count.unsigned_abs() - 1;
    if count > 0 {
        substr_index_slice_finder(string, finder, n)
    } else {
        substr_index_rslice_finder(string, finder, n)
    }
}
