//! Batches that are kept and discarded.
use crate::rows::{null, refused, text};
use offset_output::memory::Memory;
use offset_output::offset_output::OffsetOutput;
use output::Output;

/// Keeps one row, then adds four, the second of them in vain, and discards those.
fn discarded(out: &mut OffsetOutput<'_, i64>) -> [Option<u8>; 4] {
    let slip = out.open();
    let _ = refused(out.add(text("hi")));
    out.keep(slip);
    let slip = out.open();
    let first = refused(out.add(text("abc")));
    let second = refused(out.add(text("def")));
    let third = refused(out.add(null()));
    let fourth = refused(out.add(text("de")));
    out.discard(slip);
    [first, second, third, fourth]
}

#[test]
fn discarded_rows_leave_nothing_behind(rt: HostRuntime) {
    let mut offsets: [i64; 12] = [7; 12];
    let mut values = [7; 7];
    let mut validity = [7; 2];
    let mut out = OffsetOutput::new(Memory {
        offsets: &mut offsets,
        values: &mut values,
        validity: &mut validity,
    });
    let answers = discarded(&mut out);
    let rows = out.rows();
    let (counts, memory) = out.finish();
    let Memory {
        offsets,
        values,
        validity,
    } = memory;
    assert!(rt;
        answers == [None, Some(12), None, None],
        "after an add that was refused the next go on"
    );
    assert!(rt; rows == 1 && counts.rows == 1 && counts.nulls == 0 && counts.value_bytes == 2);
    let (offsets, values, validity): (&[i64], &[u8], &[u8]) = (offsets, values, validity);
    assert!(rt; offsets == [0, 2, 0, 0, 0, 0, 0, 0, 0, 0, 0, 0].as_slice());
    assert!(rt; values == b"hi\0\0\0\0\0".as_slice());
    assert!(rt; validity == b"\x01\0".as_slice());
}
