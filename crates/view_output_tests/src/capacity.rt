//! Outputs that are exactly full.
use crate::rows::written;
use std::test::Fail;
use text::open_text;

/// The fault's number, the rows and the buffers.
fn full(
    views: &mut [u8],
    validity: &mut [u8],
    ends: &mut [u64],
    bytes: &mut [u8],
    texts: &[&str],
) -> (Option<u8>, usize, usize) {
    let (number, counts) = written(views, validity, ends, bytes, texts);
    (number, counts.rows, counts.buffers)
}

#[test]
fn full_by_rows(rt: HostRuntime) {
    assert!(rt; full(&mut [7; 47], &mut [7], &mut [], &mut [], &["a", "b"]) == (None, 2, 0));
    assert!(rt;
        full(&mut [7; 47], &mut [7], &mut [], &mut [], &["a", "b", "c"]) == (Some(9), 2, 0)
    );
    assert!(rt; full(&mut [7; 15], &mut [7], &mut [], &mut [], &[""]) == (Some(9), 0, 0));
    assert!(rt;
        full(&mut [7; 16], &mut [], &mut [], &mut [], &[""]) == (Some(9), 0, 0),
        "no bitmap"
    );
}

#[test]
fn full_by_the_bitmap(rt: HostRuntime) {
    let texts = ["a", "", "b", "", "c", "", "d", "", "e"];
    assert!(rt; full(&mut [7; 160], &mut [7], &mut [], &mut [], &texts) == (Some(9), 8, 0));
    assert!(rt; full(&mut [7; 160], &mut [7; 2], &mut [], &mut [], &texts) == (None, 9, 0));
}

#[test]
fn full_by_bytes(rt: HostRuntime) {
    let long = "abcdefghijklm";
    assert!(rt;
        full(
            &mut [7; 64],
            &mut [7],
            &mut [7],
            &mut [7; 26],
            &[long, long],
        ) == (None, 2, 1)
    );
    assert!(rt;
        full(
            &mut [7; 64],
            &mut [7],
            &mut [7],
            &mut [7; 25],
            &[long, long],
        ) == (Some(12), 1, 1)
    );
    assert!(rt; full(&mut [7; 64], &mut [7], &mut [7], &mut [], &[long]) == (Some(12), 0, 0));
    assert!(rt;
        full(&mut [7; 64], &mut [7], &mut [], &mut [], &["abc", long]) == (Some(11), 1, 0),
        "the ends come before the bytes"
    );
}

#[test]
fn full_by_ends(rt: HostRuntime) -> Result<(), Fail> {
    let bytes = [b'a'; 8193];
    let long = open_text(&bytes)?;
    let texts = [long, "abcdefghijklm"];
    assert!(rt; full(&mut [7; 64], &mut [7], &mut [7; 2], &mut [7; 8206], &texts) == (None, 2, 2));
    assert!(rt; full(&mut [7; 64], &mut [7], &mut [7], &mut [7; 8206], &texts) == (Some(11), 1, 1));
    assert!(rt;
        full(
            &mut [7; 64],
            &mut [7],
            &mut [7],
            &mut [7; 8206],
            &["abcdefghijklm", "abcdefghijklm"],
        ) == (None, 2, 1)
    );
    Ok(())
}
