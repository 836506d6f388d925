//! Batches that are kept and discarded.
use crate::rows::{null, refused, text};
use output::Output;
use std::test::Fail;
use text::open_text;
use view_memory::memory::Memory;
use view_output::view_output::ViewOutput;

/// Keeps one long row, then adds five, the third of them in vain, and discards those.
fn discarded(out: &mut ViewOutput<'_>, long: &str) -> [Option<u8>; 5] {
    let slip = out.open();
    let _ = refused(out.add(text("abcdefghijklm")));
    out.keep(slip);
    let slip = out.open();
    let first = refused(out.add(text("nopqrstuvwxyz")));
    let second = refused(out.add(null()));
    let third = refused(out.add(text(long)));
    let fourth = refused(out.add(text("short")));
    let fifth = refused(out.add(text("nopqrstuvwxyz!")));
    out.discard(slip);
    [first, second, third, fourth, fifth]
}

#[test]
fn discarded_rows_leave_nothing_behind(rt: HostRuntime) -> Result<(), Fail> {
    let bytes = [b'a'; 8193];
    let long = open_text(&bytes)?;
    let mut views = [7; 100];
    let mut validity = [7; 2];
    let mut ends = [7; 3];
    let mut held = [7; 40];
    let mut out = ViewOutput::new(Memory {
        views: &mut views,
        validity: &mut validity,
        ends: &mut ends,
        bytes: &mut held,
    });
    let answers = discarded(&mut out, long);
    let rows = out.rows();
    let (counts, memory) = out.finish();
    let Memory {
        views,
        validity,
        ends,
        bytes,
    } = memory;
    assert!(rt;
        answers == [None, None, Some(12), None, None],
        "after an add that was refused the next go on"
    );
    assert!(rt; rows == 1 && counts.rows == 1 && counts.nulls == 0);
    assert!(rt; counts.value_bytes == 13 && counts.buffers == 1 && counts.long_views == 1);
    let (views, validity): (&[u8], &[u8]) = (views, validity);
    let (ends, bytes): (&[u64], &[u8]) = (ends, bytes);
    assert!(rt; views.len() == 100 && bytes.len() == 40);
    assert!(rt; &views[0..16] == b"\x0d\0\0\0abcd\0\0\0\0\0\0\0\0".as_slice());
    assert!(rt; &views[16..32] == b"\0\0\0\0\0\0\0\0\0\0\0\0\0\0\0\0".as_slice());
    assert!(rt; &views[64..80] == b"\0\0\0\0\0\0\0\0\0\0\0\0\0\0\0\0".as_slice());
    assert!(rt; validity == b"\x01\0".as_slice());
    assert!(rt; ends == [13, 0, 0].as_slice());
    assert!(rt; &bytes[0..16] == b"abcdefghijklm\0\0\0".as_slice());
    Ok(())
}
