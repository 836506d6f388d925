//! One occurrence, counted from either end.
ghost use Rattle.std.specs.Prelude.{◌≡◌, ◌+◌, ◌≤◌, length, IfSome};
ghost use Rattle.std.specs.List.{slice_get};
ghost use Rattle.search.specs.Places.{Stands};
ghost use Rattle.split.specs.Occurrences.{occurrences, occurrences_back};

use search::Searcher;
use split::walk::{before_occurrences, past_occurrences};

/// Where occurrence `n` (0-based) from the left stands.
pub fn occurrence_left<F: Searcher>(row: &[u8], finder: &F, n: u64) -> Option<usize>
    ensures place { result ≡ slice_get (occurrences (F.delimiter finder.now) row.now) n }
    ensures here { IfSome result (λ p. Stands (F.delimiter finder.now) row.now p) }
{
    let start = past_occurrences(row, finder, n)?;
    Some(start + finder.find(&row[start..])?)
}

// The twin of `occurrence_left`: the two differ in direction, not in a type, a size or a constant.
/// Where occurrence `n` (0-based) from the right stands.
pub fn occurrence_right<F: Searcher>(row: &[u8], finder: &F, n: u64) -> Option<usize>
    ensures place { result ≡ slice_get (occurrences_back (F.delimiter finder.now) row.now) n }
    ensures here { IfSome result (λ p. Stands (F.delimiter finder.now) row.now p) }
{
    let end = before_occurrences(row, finder, n)?;
    finder.rfind(&row[0..end])
}
