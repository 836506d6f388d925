//! A finished output, opened again as a column.
use crate::rows::{null, text};
use columns::lent::Lent;
use columns::offset_column::OffsetColumn;
use offset_output::memory::Memory;
use offset_output::offset_output::OffsetOutput;
use output::{Counts, Output};
use source::Source;
use std::test::Fail;

/// Three rows that are kept and one that is pending, over any memory.
fn finished<'a>(memory: Memory<'a, i32>) -> (Counts, Lent<'a, i32>) {
    let mut out = OffsetOutput::new(memory);
    let slip = out.open();
    let _ = out.add(text("hi"));
    let _ = out.add(null());
    let _ = out.add(text("é"));
    out.keep(slip);
    let _ = out.add(text("x"));
    let (counts, memory) = out.finish();
    let Memory {
        offsets,
        values,
        validity,
    } = memory;
    (
        counts,
        Lent {
            offsets,
            values,
            validity: Some(validity),
        },
    )
}

#[test]
fn rows_are_read_again(rt: HostRuntime) -> Result<(), Fail> {
    let mut offsets = [7, -7, 7, 7, 7];
    let mut values = [9; 8];
    let mut validity = [255];
    let (counts, lent) = finished(Memory {
        offsets: &mut offsets,
        values: &mut values,
        validity: &mut validity,
    });
    assert!(rt; counts.rows == 3 && counts.nulls == 1 && counts.value_bytes == 4);
    assert!(rt; counts.buffers == 0 && counts.long_views == 0);
    assert!(rt; lent.offsets == [0, 2, 2, 4, 0].as_slice());
    assert!(rt; lent.values == b"hi\xc3\xa9\0\0\0\0".as_slice());
    let column = OffsetColumn::open(counts.rows, lent)?;
    assert!(rt; column.text(0) == Some("hi"));
    assert!(rt; column.text(1) == None);
    assert!(rt; column.text(2) == Some("é"));
    assert!(rt; column.text(3) == None);
    Ok(())
}
