//! The promises of an output and of a column fit together: what was kept is always read again.
ghost use Rattle.std.specs.Prelude.{◌≡◌, map};
ghost use Rattle.columns.specs.Offsets.{rows_in};
ghost use Rattle.columns.specs.Reading.{lists};
ghost use Rattle.copying.specs.Pieces.{kept_pieces};
ghost use Rattle.offset_output.specs.Fillings.{held_rows};
ghost use Rattle.output.specs.Rows.{row_of};

use columns::lent::Lent;
use columns::offset_column::OffsetColumn;
use offset_output::memory::Memory;
use offset_output::offset_output::OffsetOutput;
use offset_output::width::OffsetWidth;
use output::Output;

/// Finishes an output and opens it again.
pub fn reopened<'a, W: OffsetWidth>(out: OffsetOutput<'a, W>) -> OffsetColumn<'a, W>
    ensures { rows_in result.rows (lists W.Width.number result.lent) ≡ map row_of (kept_pieces out.entry.store.kept.rows (held_rows out.entry.store)) }
{
    let (counts, memory) = out.finish();
    let Memory {
        offsets,
        values,
        validity,
    } = memory;
    let lent = Lent {
        offsets,
        values,
        validity: Some(validity),
    };
    OffsetColumn::open(counts.rows, lent).unwrap_or(OffsetColumn::empty())
}
