//! Outputs that are exactly full.
use crate::rows::{refused, text};
use offset_output::memory::Memory;
use offset_output::offset_output::OffsetOutput;
use offset_output::width::OffsetWidth;
use output::Output;

// Stands in `view_output_tests` too: a crate of its own for it would be no plainer.
/// Adds the texts, up to one that is refused: the number of its fault.
fn add_all<O: Output>(out: &mut O, texts: &[&str]) -> Option<u8> {
    let slip = out.open();
    let added = texts.iter().try_for_each(|t| out.add(text(t)));
    out.keep(slip);
    refused(added)
}

/// The fault's number, the rows and the value bytes.
fn written<'a, W: OffsetWidth>(
    offsets: &'a mut [W],
    values: &'a mut [u8],
    validity: &'a mut [u8],
    texts: &[&str],
) -> (Option<u8>, usize, usize) {
    let mut out = OffsetOutput::new(Memory {
        offsets,
        values,
        validity,
    });
    let number = add_all(&mut out, texts);
    let (counts, memory) = out.finish();
    let Memory {
        offsets: _,
        values: _,
        validity: _,
    } = memory;
    (number, counts.rows, counts.value_bytes)
}

#[test]
fn full_by_rows(rt: HostRuntime) {
    assert!(rt; written::<i32>(&mut [7; 3], &mut [7; 9], &mut [7], &["a", "b"]) == (None, 2, 2));
    assert!(rt;
        written::<i32>(&mut [7; 3], &mut [7; 9], &mut [7], &["a", "b", "c"]) == (Some(9), 2, 2)
    );
    assert!(rt;
        written::<i64>(&mut [7; 3], &mut [7; 9], &mut [7], &["a", "b", "c"]) == (Some(9), 2, 2)
    );
    assert!(rt;
        written::<i32>(&mut [], &mut [7; 9], &mut [7], &[""]) == (Some(9), 0, 0),
        "no offsets"
    );
    assert!(rt;
        written::<i64>(&mut [7; 2], &mut [7; 9], &mut [], &[""]) == (Some(9), 0, 0),
        "no bitmap"
    );
}

#[test]
fn full_by_the_bitmap(rt: HostRuntime) {
    let texts = ["a", "", "b", "", "c", "", "d", "", "e"];
    assert!(rt; written::<i32>(&mut [7; 20], &mut [7; 9], &mut [7], &texts) == (Some(9), 8, 4));
    assert!(rt; written::<i64>(&mut [7; 20], &mut [7; 9], &mut [7; 2], &texts) == (None, 9, 5));
}

#[test]
fn full_by_bytes(rt: HostRuntime) {
    assert!(rt;
        written::<i32>(&mut [7; 9], &mut [7; 4], &mut [7], &["ab", "cd", ""]) == (None, 3, 4)
    );
    assert!(rt;
        written::<i32>(&mut [7; 9], &mut [7; 4], &mut [7], &["ab", "cde"]) == (Some(12), 1, 2)
    );
    assert!(rt;
        written::<i64>(&mut [7; 9], &mut [7; 4], &mut [7], &["ab", "cd", "e"]) == (Some(12), 2, 4)
    );
    assert!(rt; written::<i64>(&mut [7; 2], &mut [], &mut [7], &["ab", "cde"]) == (Some(12), 0, 0));
    assert!(rt;
        written::<i64>(&mut [7; 2], &mut [7; 2], &mut [7], &["ab", "cde"]) == (Some(9), 1, 2),
        "rows before bytes"
    );
}

#[test]
fn largest_offsets(rt: HostRuntime) {
    assert!(rt; <i32 as OffsetWidth>::end(2147483646, 1) == Some(2147483647));
    assert!(rt; <i32 as OffsetWidth>::end(2147483646, 2) == None);
    assert!(rt;
        <i32 as OffsetWidth>::end(18446744073709551615, 1) == None,
        "the sum would wrap"
    );
    assert!(rt; <i64 as OffsetWidth>::end(9223372036854775806, 1) == Some(9223372036854775807));
    assert!(rt; <i64 as OffsetWidth>::end(9223372036854775806, 2) == None);
    assert!(rt; <i64 as OffsetWidth>::end(1, 18446744073709551615) == None);
}
