//! Every call of a list, one after the other.
ghost use Rattle.std.specs.Prelude.{◌≡◌, ◌<◌, [], map, length, IfOk, None, MatchResult, OnErr, OnOk, slice_index_or};
ghost use Rattle.book.specs.OnTerms.{all_kept_on, answer_on, answers_on, kept_on};
ghost use Rattle.book.specs.Requests.{AllOver, Over, asked_rows, nothing};
ghost use Rattle.book.specs.Runs.{Booked, Runs};
ghost use Rattle.output.specs.Rows.{nulls_in, row_of};

use crate::CallList;
use calls::making::make;
use fault::Fault;
use output::{Counts, Output};
use std::alloc::{AllocError, Global};

// What each function leaves of an output it says by the same clauses as `Output`.
/// Makes one call of the list.
fn make_number<'t, L: CallList<'t>, O: Output>(
    calls: &L,
    number: usize,
    out: &mut O,
) -> Result<usize, Fault>
    requires { number < length (L.requests calls.now) }
    ensures answer { result ≡ answer_on (O.terms out.old) (O.kept out.old) (slice_index_or (L.requests calls.now) number nothing) }
    ensures kept { O.kept out.new ≡ kept_on (O.terms out.old) (O.kept out.old) (slice_index_or (L.requests calls.now) number nothing) }
    ensures book { Over (O.terms out.old).base (slice_index_or (L.requests calls.now) number nothing).drawn → Booked (O.terms out.old).rule (map row_of (O.kept out.old)) (asked_rows (slice_index_or (L.requests calls.now) number nothing)) result (map row_of (O.kept out.new)) }
    ensures pending { O.pending out.new ≡ [] }
    ensures terms { O.terms out.new ≡ O.terms out.old }
{
    match calls.call(number) {
        Some(call) => make(&call, out),
        None => unreachable(),
    }
}

/// Makes every call of a list, each upon what the one before left, and gives their answers. Rows left pending before it
/// are dropped. Where there is no memory for the answers, no call is made and the output is as found.
pub fn run<'t, L: CallList<'t>, O: Output>(
    heap: Global,
    calls: &L,
    out: &mut O,
) -> Result<Vec<Result<usize, Fault>>, AllocError>
    ensures told { IfOk result (λ v. v.items ≡ answers_on (O.terms out.old) (O.kept out.old) (L.requests calls.now)) }
    ensures kept { MatchResult result (λ _. O.kept out.new ≡ all_kept_on (O.terms out.old) (O.kept out.old) (L.requests calls.now)) (λ _. out.new ≡ out.old) }
    ensures runs { IfOk result (λ v. AllOver (O.terms out.old).base (L.requests calls.now) → Runs (O.terms out.old).rule (map row_of (O.kept out.old)) (map asked_rows (L.requests calls.now)) v.items (map row_of (O.kept out.new))) }
    ensures pending { OnOk result (O.pending out.new ≡ []) }
    ensures terms { O.terms out.new ≡ O.terms out.old }
{
    let mut told = Vec::with_capacity(heap, calls.len())?;
    let slip = out.open();
    out.discard(slip);
    // By number, as a list of calls is asked: an iterator of calls would say by what it yields, and not by one list, what they ask.
    for number in 0..calls.len() {
        let _ = told.push(make_number(calls, number, out));
    }
    Ok(told)
}

/// What a list of calls leaves: what each was told, and the finished output's counts and memory.
pub struct Finished<M> {
    pub told: Result<Vec<Result<usize, Fault>>, AllocError>,
    pub counts: Counts,
    pub memory: M,
}

/// Makes every call of a list upon an output and finishes it. Each call is told what the book tells, and the finished
/// output opens again and reads exactly the book's rows, in order.
pub fn run_and_finish<'t, L: CallList<'t>, O: Output>(
    heap: Global,
    calls: &L,
    out: O,
) -> Finished<O::Memory>
    ensures runs { IfOk result.told (λ v. AllOver (O.terms out).base (L.requests calls.now) → Runs (O.terms out).rule (map row_of (O.kept out)) (map asked_rows (L.requests calls.now)) v.items (O.reading result.memory result.counts)) }
    ensures untouched { OnErr result.told (O.reading result.memory result.counts ≡ map row_of (O.kept out)) }
    ensures accepted { O.opened result.memory result.counts ≡ None }
    ensures rows { result.counts.rows ≡ length (O.reading result.memory result.counts) }
    ensures nulls { result.counts.nulls ≡ nulls_in (O.reading result.memory result.counts) }
{
    let mut out = out;
    let told = run(heap, calls, &mut out);
    let (counts, memory) = out.finish();
    Finished {
        told,
        counts,
        memory,
    }
}
