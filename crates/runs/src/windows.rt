//! A call cut into calls on consecutive windows.
ghost use Rattle.std.specs.Prelude.{◌≡◌, ◌^◌, ◌<◌, true, [], map, is_some, IfSome, IfNone, MatchOption, ◌==◌, ◌≢◌};
ghost use Rattle.book.specs.Book.{after, after_all, answer, answers};
ghost use Rattle.book.specs.Division.{Agreed, all_taken, parts, sum_told, total};
ghost use Rattle.book.specs.OnTerms.{answer_on, kept_on};
ghost use Rattle.book.specs.Requests.{Over, asked_by, asked_rows};
ghost use Rattle.output.specs.Rows.{on_rows, row_of};
ghost use Rattle.runs.specs.Covers.{covers};

use crate::Divisible;
use calls::making::make;
use fault::Fault;
use output::Output;

/// Whether the windows have so many rows together. No sum may wrap.
fn total_is(windows: &[usize], rows: usize) -> bool
    ensures { result ≡ (total windows.now == rows) }
{
    let mut sum = 0;
    for window in windows {
        if *window > rows - sum {
            return false;
        }
        sum += *window;
    }
    sum == rows
}

// A flag beside the rows, and neither an Option nor a Result: the rows are told also where not all windows were accepted.
/// What the calls on windows were told: whether all were accepted, and the rows added together.
#[derive(Clone, Copy, PartialEq, Eq, Debug)]
pub struct Told {
    pub all: bool,
    pub rows: usize,
}

// What each function leaves of an output it says by the same clauses as `Output`.
/// Makes the call on one window after the other.
fn make_windows<'t, C: Divisible<'t> + Drop, O: Output>(
    call: &C,
    windows: &[usize],
    out: &mut O,
) -> Told
    requires cuttable { C.cuttable call.now ≡ true }
    requires total { total windows.now ≡ (C.Call.request call.now).size }
    requires fits { total windows.now < 2 ^ 64 }
    ensures all { result.all ≡ all_taken (answers (on_rows (O.terms out.old).rule) (O.kept out.old) (map (λ c. asked_by (O.terms out.old).taken (C.Call.request c)) (parts C.Divisible.part call.now 0 windows.now))) }
    ensures sum { result.rows ≡ sum_told (answers (on_rows (O.terms out.old).rule) (O.kept out.old) (map (λ c. asked_by (O.terms out.old).taken (C.Call.request c)) (parts C.Divisible.part call.now 0 windows.now))) }
    ensures kept { O.kept out.new ≡ after_all (on_rows (O.terms out.old).rule) (O.kept out.old) (map (λ c. asked_by (O.terms out.old).taken (C.Call.request c)) (parts C.Divisible.part call.now 0 windows.now)) }
    ensures rows { Over (O.terms out.old).base (C.Call.request call.now).drawn → (result.all ≡ all_taken (answers (O.terms out.old).rule (map row_of (O.kept out.old)) (map (λ c. asked_rows (C.Call.request c)) (parts C.Divisible.part call.now 0 windows.now)))) × (result.rows ≡ sum_told (answers (O.terms out.old).rule (map row_of (O.kept out.old)) (map (λ c. asked_rows (C.Call.request c)) (parts C.Divisible.part call.now 0 windows.now)))) × (map row_of (O.kept out.new) ≡ after_all (O.terms out.old).rule (map row_of (O.kept out.old)) (map (λ c. asked_rows (C.Call.request c)) (parts C.Divisible.part call.now 0 windows.now))) }
    ensures pending { (windows.now ≢ []) → O.pending out.new ≡ [] }
    ensures terms { O.terms out.new ≡ O.terms out.old }
{
    let mut at = 0;
    let mut all = true;
    let mut rows = 0;
    for window in windows {
        let told = make(&call.window(at, *window), out);
        all = all & told.is_ok();
        rows += told.unwrap_or(0);
        at += *window;
    }
    Told { all, rows }
}

/// Makes a call in consecutive windows of these sizes, from its first row on. All windows are accepted exactly when the
/// whole call would be; then the rows told add up to the call's, and the rows kept, and all memory, are those that the
/// whole call would leave. Where the windows do not cover the call nothing is done.
pub fn in_windows<'t, C: Divisible<'t> + Drop, O: Output>(
    call: &C,
    windows: &[usize],
    out: &mut O,
) -> Option<Told>
    ensures covers { is_some result ≡ covers (C.cuttable call.now) (C.Call.request call.now).size windows.now }
    ensures told { MatchOption result (out.new ≡ out.old) (λ told. Agreed (answer_on (O.terms out.old) (O.kept out.old) (C.Call.request call.now)) (kept_on (O.terms out.old) (O.kept out.old) (C.Call.request call.now)) told.all told.rows (O.kept out.new)) }
    ensures kept { IfSome result (λ told. O.kept out.new ≡ after_all (on_rows (O.terms out.old).rule) (O.kept out.old) (map (λ c. asked_by (O.terms out.old).taken (C.Call.request c)) (parts C.Divisible.part call.now 0 windows.now))) }
    ensures book { IfSome result (λ told. Over (O.terms out.old).base (C.Call.request call.now).drawn → Agreed (answer (O.terms out.old).rule (map row_of (O.kept out.old)) (asked_rows (C.Call.request call.now))) (after (O.terms out.old).rule (map row_of (O.kept out.old)) (asked_rows (C.Call.request call.now))) told.all told.rows (map row_of (O.kept out.new))) }
    ensures pending { IfSome result (λ told. O.pending out.new ≡ []) }
    ensures terms { O.terms out.new ≡ O.terms out.old }
    ensures memory { IfSome result (λ told. told.all ≡ true → (whole : O) → (O.terms whole).sizes ≡ (O.terms out.old).sizes → O.kept whole ≡ kept_on (O.terms out.old) (O.kept out.old) (C.Call.request call.now) → O.pending whole ≡ [] → O.memory out.new ≡ O.memory whole) }
{
    if windows.len() == 0 || !call.is_cuttable() || !total_is(windows, call.rows()) {
        return None;
    }
    let told = make_windows(call, windows, out);
    Some(told)
}

/// A whole call upon one output, and the same call in windows upon another: what each was told.
#[derive(Clone, Copy)]
pub struct BothTold {
    pub whole: Result<usize, Fault>,
    pub windows: Told,
}

/// Makes a call upon one output, and in windows upon another. Where the outputs were equal, all windows are accepted exactly
/// when the whole call is; then the rows told add up, and both keep the same rows in the same memory. Where the windows
/// do not cover the call nothing is done.
pub fn divided<'t, C: Divisible<'t> + Drop, O: Output>(
    call: &C,
    windows: &[usize],
    a: &mut O,
    b: &mut O,
) -> Option<BothTold>
    ensures covers { is_some result ≡ covers (C.cuttable call.now) (C.Call.request call.now).size windows.now }
    ensures nothing { IfNone result ((a.new ≡ a.old) × (b.new ≡ b.old)) }
    ensures whole { IfSome result (λ d. d.whole ≡ answer_on (O.terms a.old) (O.kept a.old) (C.Call.request call.now)) }
    ensures agreed { IfSome result (λ d. (O.terms a.old).rule ≡ (O.terms b.old).rule → (O.terms a.old).taken ≡ (O.terms b.old).taken → O.kept a.old ≡ O.kept b.old → Agreed d.whole (O.kept a.new) d.windows.all d.windows.rows (O.kept b.new)) }
    ensures memory { IfSome result (λ d. (O.terms a.old).rule ≡ (O.terms b.old).rule → (O.terms a.old).taken ≡ (O.terms b.old).taken → O.kept a.old ≡ O.kept b.old → (O.terms a.old).sizes ≡ (O.terms b.old).sizes → d.windows.all ≡ true → O.memory a.new ≡ O.memory b.new) }
{
    let windows = in_windows(call, windows, b)?;
    let whole = make(call, a);
    Some(BothTold { whole, windows })
}
