//! Rows, sets and what remains of them.
use crate::trimmer::{TrimBoth, TrimLeft, TrimRight, Trimmer};

#[test]
fn both_may_leave_nothing(rt: HostRuntime) {
    assert_eq!(rt; TrimBoth::trim("xxx", "x"), ("", 3));
    assert_eq!(rt; TrimRight::trim("xxx", "x"), ("", 0));
}

#[test]
fn characters_are_whole(rt: HostRuntime) {
    // è and é share their first byte.
    assert_eq!(rt; TrimLeft::trim("è", "é"), ("è", 0));
    assert_eq!(rt; TrimRight::trim("aè", "è"), ("a", 0));
}

#[test]
fn spaces_are_the_default(rt: HostRuntime) {
    assert_eq!(rt; TrimBoth::trim_spaces("  a b "), ("a b", 2));
    assert_eq!(rt; TrimLeft::trim_spaces("\t a"), ("\t a", 0));
}

#[test]
fn a_set_has_any_characters(rt: HostRuntime) {
    assert_eq!(rt; TrimBoth::trim("x😀éyé😀", "é😀x"), ("y", 7));
    assert_eq!(rt; TrimBoth::trim("xyx", ""), ("xyx", 0));
}
