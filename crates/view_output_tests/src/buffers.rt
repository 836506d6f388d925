//! Which texts lie in a buffer, and in which.
use crate::rows::written;
use std::test::Fail;
use text::open_text;

/// The fault's number, the rows, the value bytes, the buffers and the long views, in memory that suffices.
fn laid(texts: &[&str]) -> (Option<u8>, usize, usize, usize, usize) {
    let (number, counts) = written(&mut [7; 64], &mut [7], &mut [7; 4], &mut [7; 16400], texts);
    (
        number,
        counts.rows,
        counts.value_bytes,
        counts.buffers,
        counts.long_views,
    )
}

#[test]
fn twelve_bytes_and_thirteen(rt: HostRuntime) {
    assert!(rt; laid(&["abcdefghijkl"]) == (None, 1, 0, 0, 0));
    assert!(rt; laid(&["abcdefghijklm"]) == (None, 1, 13, 1, 1));
    assert!(rt; laid(&["", "abcdefghijklm", "a", "abcdefghijklmn"]) == (None, 4, 27, 1, 2));
}

#[test]
fn the_last_buffer_holds_up_to_8192_bytes(rt: HostRuntime) -> Result<(), Fail> {
    let bytes = [b'a'; 8193];
    let filled = open_text(&bytes[0..8000])?;
    assert!(rt; laid(&[filled, open_text(&bytes[0..192])?]) == (None, 2, 8192, 1, 2));
    assert!(rt; laid(&[filled, open_text(&bytes[0..193])?]) == (None, 2, 8193, 2, 2));
    let one_more = open_text(&bytes[0..13])?;
    assert!(rt;
        laid(&[filled, open_text(&bytes[0..193])?, one_more]) == (None, 3, 8206, 2, 3),
        "the last buffer is filled, not an earlier one"
    );
    Ok(())
}

#[test]
fn a_longer_text_has_a_buffer_of_its_own(rt: HostRuntime) -> Result<(), Fail> {
    let bytes = [b'a'; 8193];
    let long = open_text(&bytes)?;
    assert!(rt; laid(&[long]) == (None, 1, 8193, 1, 1));
    assert!(rt; laid(&["abcdefghijklm", long, "abcdefghijklm"]) == (None, 3, 8219, 3, 3));
    Ok(())
}
