//! A finished output, opened again as a column.
use crate::rows::{null, text};
use output::{Counts, Output};
use source::Source;
use std::test::Fail;
use view_memory::memory::Memory;
use view_output::view_output::ViewOutput;
use views::lent::{Buffers, Lent};
use views::view_column::ViewColumn;

/// Four rows that are kept and one that is pending, over any memory.
fn finished<'a>(memory: Memory<'a>) -> (Counts, Memory<'a>) {
    let mut out = ViewOutput::new(memory);
    let slip = out.open();
    let _ = out.add(text("hi"));
    let _ = out.add(null());
    let _ = out.add(text("abcdefghijklmn"));
    let _ = out.add(text("abcdefghijké"));
    out.keep(slip);
    let _ = out.add(text("nopqrstuvwxyz"));
    out.finish()
}

#[test]
fn rows_are_read_again(rt: HostRuntime) -> Result<(), Fail> {
    let mut views = [9; 90];
    let mut validity = [255];
    let mut ends = [9; 3];
    let mut bytes = [9; 50];
    let (counts, memory) = finished(Memory {
        views: &mut views,
        validity: &mut validity,
        ends: &mut ends,
        bytes: &mut bytes,
    });
    let Memory {
        views,
        validity,
        ends,
        bytes,
    } = memory;
    assert!(rt; counts.rows == 4 && counts.nulls == 1 && counts.value_bytes == 27);
    assert!(rt; counts.buffers == 1 && counts.long_views == 2);
    let ends: &[u64] = ends;
    assert!(rt; ends == [27, 0, 0].as_slice());
    let lent = Lent {
        views,
        buffers: Buffers {
            bytes,
            ends: &ends[0..1],
        },
        validity: Some(validity),
    };
    let column = ViewColumn::open(counts.rows, lent)?;
    assert!(rt; column.text(0) == Some("hi"));
    assert!(rt; column.text(1) == None);
    assert!(rt; column.text(2) == Some("abcdefghijklmn"));
    assert!(rt; column.text(3) == Some("abcdefghijké"));
    assert!(rt; column.place(3) == Some((0, 14)));
    assert!(rt; column.text(4) == None);
    Ok(())
}
