//! Examples of searchers and of `split_part`: rows, delimiters and positions, with the field and its place.
//! They stand in a crate of their own, since a crate with tests is proved twice.
#![tactic(auto)]

use fault::Layer;
use search::Searcher;
use search::finder::Finder;
use search::one_byte::OneByte;
use search::plain::Plain;
use split::split_part;
#[cfg(test)]
use std::process::Abort;
use std::test::Fail;

/// The searcher for a text of one byte.
fn one_byte(delimiter: &str) -> Result<OneByte, Fail> {
    OneByte::new(delimiter).ok_or_else(|| Fail::new("the delimiter has not one byte"))
}

/// Checks the delimiter's length, and its lowest and highest place in `text`.
#[cfg(test)]
fn places<F: Searcher>(
    rt: &impl Abort,
    finder: &F,
    len: usize,
    text: &[u8],
    lowest: Option<usize>,
    highest: Option<usize>,
) -> Result<(), Fail> {
    assert_eq!(rt; finder.len(), len);
    assert_eq!(rt; finder.find(text), lowest);
    assert_eq!(rt; finder.rfind(text), highest);
    Ok(())
}

/// Checks that the field at `position` is `text`, at `place`.
#[cfg(test)]
fn field<F: Searcher>(
    rt: &impl Abort,
    row: &str,
    finder: &F,
    position: i64,
    text: &str,
    place: u64,
) -> Result<(), Fail> {
    let (found, at) = split_part(row, finder, position)?;
    assert_eq!(rt; found, text);
    assert_eq!(rt; at, place);
    Ok(())
}

/// Checks that there is no field at `position`.
#[cfg(test)]
fn missing<F: Searcher>(rt: &impl Abort, row: &str, finder: &F, position: i64) -> Result<(), Fail> {
    field(rt, row, finder, position, "", 0)
}

#[test]
fn lowest_and_highest(rt: HostRuntime) -> Result<(), Fail> {
    places(&rt, &one_byte("b")?, 1, b"abcab", Some(1), Some(4))?;
    places(&rt, &Plain::new("aa"), 2, b"aaaa", Some(0), Some(2))?;
    places(&rt, &Plain::new("ab"), 2, b"ab", Some(0), Some(0))?;
    places(&rt, &Plain::new("abc"), 3, b"ab", None, None)?;
    places(&rt, &Finder::new("b"), 1, b"abcab", Some(1), Some(4))?;
    places(&rt, &Finder::new("bc"), 2, b"abcab", Some(1), Some(1))?;
    places(&rt, &Finder::new(""), 0, b"abc", None, None)
}

#[test]
fn not_one_byte(rt: HostRuntime) {
    assert!(rt; OneByte::new("").is_none());
    assert!(rt; OneByte::new("bb").is_none());
    assert!(rt; OneByte::new("è").is_none());
}

#[test]
fn fields_by_one_byte(rt: HostRuntime) -> Result<(), Fail> {
    let comma = one_byte(",")?;
    field(&rt, "a,b,c", &comma, 2, "b", 2)?;
    field(&rt, "a,b,c", &comma, -1, "c", 4)?;
    missing(&rt, "a,b,c", &comma, 4)?;
    missing(&rt, "a,b,c", &comma, i64::MAX)?;
    missing(&rt, "a,b,c", &comma, i64::MIN)
}

#[test]
fn occurrences_that_overlap(rt: HostRuntime) -> Result<(), Fail> {
    let twice = Plain::new("aa");
    field(&rt, "aaa", &twice, 2, "a", 2)?;
    field(&rt, "aaa", &twice, -2, "a", 0)?;
    let dashes = Plain::new("--");
    field(&rt, "a---b", &dashes, 2, "-b", 3)?;
    field(&rt, "a---b", &dashes, -1, "b", 4)?;
    field(&rt, "a---b", &dashes, -2, "a-", 0)
}

#[test]
fn characters_that_share_a_byte(rt: HostRuntime) -> Result<(), Fail> {
    let e_acute = Finder::new("é");
    field(&rt, "xèyéz", &e_acute, 1, "xèy", 0)?;
    field(&rt, "xèyéz", &e_acute, 2, "z", 6)
}

#[test]
fn empty_long_and_whole(rt: HostRuntime) -> Result<(), Fail> {
    let empty = Finder::new("");
    field(&rt, "abc", &empty, -1, "abc", 0)?;
    missing(&rt, "abc", &empty, 2)?;
    let long = Finder::new("abc");
    field(&rt, "ab", &long, 1, "ab", 0)?;
    field(&rt, "ab", &long, -1, "ab", 0)?;
    missing(&rt, "ab", &long, 2)?;
    let whole = Finder::new("ab");
    field(&rt, "ab", &whole, 1, "", 0)?;
    field(&rt, "ab", &whole, 2, "", 2)
}

#[test]
fn position_zero(rt: HostRuntime) -> Result<(), Fail> {
    match split_part("a,b", &Finder::new(","), 0) {
        Ok(_) => Err(Fail::new("there is no position 0")),
        Err(fault) => {
            assert_eq!(rt; fault.number(), 8);
            assert_eq!(rt; fault.layer(), Layer::Call);
            assert_eq!(rt; fault.row(), 0);
            Ok(())
        }
    }
}
