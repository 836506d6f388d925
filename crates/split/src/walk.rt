//! The walk over occurrences: from the left each search gets only what follows the last
//! occurrence's end, from the right only what precedes the last occurrence.
ghost use Rattle.std.specs.Prelude.{◌≡◌, ◌≤◌, length, IfSome};
ghost use Rattle.split.specs.Occurrences.{end_after, occurrences, occurrences_back, start_before};

use search::Searcher;

/// Where the first `n` occurrences from the left end; nothing where there are fewer.
pub fn past_occurrences<F: Searcher>(row: &[u8], finder: &F, n: u64) -> Option<usize>
    ensures place { result ≡ end_after (F.delimiter finder.now) 0 (occurrences (F.delimiter finder.now) row.now) n }
    ensures within { IfSome result (λ p. p ≤ length row.now) }
{
    let mut start = 0;
    // A count of passes: nothing is indexed by it.
    for _passed in 0..n {
        start += finder.find(&row[start..])? + finder.len();
    }
    Some(start)
}

// The twin of `past_occurrences`: the two differ in direction, not in a type, a size or a constant.
/// Where the first `n` occurrences from the right begin; nothing where there are fewer.
pub fn before_occurrences<F: Searcher>(row: &[u8], finder: &F, n: u64) -> Option<usize>
    ensures place { result ≡ start_before (length row.now) (occurrences_back (F.delimiter finder.now) row.now) n }
    ensures within { IfSome result (λ p. p ≤ length row.now) }
{
    let mut end = row.len();
    // A count of passes: nothing is indexed by it.
    for _passed in 0..n {
        end = finder.rfind(&row[0..end])?;
    }
    Some(end)
}
