//! Making a call: its rows are added one by one, and kept all or none.
ghost use Rattle.std.specs.Prelude.{◌≡◌, false, [], ◌++◌, map, is_ok};
ghost use Rattle.book.specs.Book.{fed};
ghost use Rattle.book.specs.OnTerms.{answer_on, kept_on};
ghost use Rattle.book.specs.Requests.{Over, asked_by, asked_rows};
ghost use Rattle.book.specs.Runs.{Booked};
ghost use Rattle.calls.specs.Offers.{ended};
ghost use Rattle.fault.specs.Faults.{placed_at};
ghost use Rattle.output.specs.Rows.{on_rows, row_of};
ghost use Rattle.std.specs.Result.{result_map_both};

use crate::Call;
use fault::Fault;
use output::Output;

/// What a row was told: its fault is set at the row.
fn at_row(told: Result<(), Fault>, row: usize) -> Result<(), Fault>
    ensures { result ≡ result_map_both (λ x. x) (placed_at row) told }
{
    told.map_err(|fault| fault.at(row))
}

/// Adds the rows upward, up to the first fault, which is then that of its row.
fn fill<'t, C: Call<'t>, O: Output>(call: &C, rows: usize, out: &mut O) -> Result<(), Fault>
    requires { rows ≡ (C.request call.now).size }
    ensures kept { O.kept out.new ≡ O.kept out.old }
    ensures terms { O.terms out.new ≡ O.terms out.old }
    ensures pieces { ended result (O.kept out.old ++ O.pending out.new) ≡ fed (on_rows (O.terms out.old).rule) (O.kept out.old ++ O.pending out.old) 0 (asked_by (O.terms out.old).taken (C.request call.now)).offers }
    ensures rows { Over (O.terms out.old).base (C.request call.now).drawn → ended result (map row_of (O.kept out.old ++ O.pending out.new)) ≡ fed (O.terms out.old).rule (map row_of (O.kept out.old ++ O.pending out.old)) 0 (asked_rows (C.request call.now)).offers }
{
    // By number, as a call is asked for its rows, and as faults go by.
    for row in 0..rows {
        // A match, and not `at_row` as below: with each piece wrapped anew a null row took half as long again.
        let piece = match call.row(row) {
            Ok(piece) => piece,
            Err(own) => return Err(own.at(row)),
        };
        at_row(out.add(piece), row)?;
    }
    Ok(())
}

/// Makes a call: drops the rows left pending, adds the call's rows and keeps them, or at the first fault none, and
/// answers how many were added. The answer and the rows kept are the book's. After a refusal the output is as found.
pub fn make<'t, C: Call<'t>, O: Output>(call: &C, out: &mut O) -> Result<usize, Fault>
    ensures answer { result ≡ answer_on (O.terms out.old) (O.kept out.old) (C.request call.now) }
    ensures kept { O.kept out.new ≡ kept_on (O.terms out.old) (O.kept out.old) (C.request call.now) }
    ensures book { Over (O.terms out.old).base (C.request call.now).drawn → Booked (O.terms out.old).rule (map row_of (O.kept out.old)) (asked_rows (C.request call.now)) result (map row_of (O.kept out.new)) }
    ensures pending { O.pending out.new ≡ [] }
    ensures terms { O.terms out.new ≡ O.terms out.old }
    ensures memory { is_ok result ≡ false → (found : O) → (O.terms found).sizes ≡ (O.terms out.old).sizes → O.kept found ≡ O.kept out.old → O.pending found ≡ [] → O.memory out.new ≡ O.memory found }
{
    let slip = out.open();
    out.discard(slip);
    call.start()?;
    let rows = call.rows();
    let slip = out.open();
    match fill(call, rows, out) {
        Ok(()) => {
            out.keep(slip);
            Ok(rows)
        }
        Err(fault) => {
            out.discard(slip);
            Err(fault)
        }
    }
}
