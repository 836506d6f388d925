use crate::report::told;
use columns::lent::Lent;
use columns::offset_column::OffsetColumn;
use columns::width::Width;
use source::Source;
use std::test::Fail;

fn open<'a, W: Width>(
    rows: usize,
    offsets: &'a [W],
    values: &'a [u8],
    validity: Option<&'a [u8]>,
) -> Option<(u8, usize)> {
    told(OffsetColumn::open(
        rows,
        Lent {
            offsets,
            values,
            validity,
        },
    ))
}

#[test]
fn no_rows_need_no_lists(rt: HostRuntime) {
    assert!(rt; open::<i32>(0, &[], b"", None) == None);
    assert!(rt; open::<i64>(0, &[], b"", Some(b"")) == None);
    assert!(rt;
        open::<i32>(0, &[-1], b"", None) == None,
        "no offset is read"
    );
}

#[test]
fn short_lists(rt: HostRuntime) {
    assert!(rt; open::<i32>(1, &[0], b"", None) == Some((1, 0)));
    assert!(rt; open::<i64>(1, &[0], b"", None) == Some((1, 0)));
    assert!(rt;
        open::<i32>(2, &[-1, 0], b"", None) == Some((1, 0)),
        "before the rows"
    );
    assert!(rt; open::<i32>(1, &[0, 0], b"", Some(b"")) == Some((1, 0)));
    assert!(rt; open::<i32>(8, &[0, 0, 0, 0, 0, 0, 0, 0, 0], b"", Some(b"\xff")) == None);
    assert!(rt;
        open::<i32>(9, &[0, 0, 0, 0, 0, 0, 0, 0, 0, 0], b"", Some(b"\xff")) == Some((1, 0))
    );
    assert!(rt; open::<i32>(18446744073709551615, &[0, 0], b"", Some(b"\xff")) == Some((1, 0)));
    assert!(rt; open::<i64>(18446744073709551608, &[0], b"", None) == Some((1, 0)));
}

#[test]
fn offsets_out_of_order(rt: HostRuntime) {
    assert!(rt; open::<i32>(1, &[-1, 0], b"ab", None) == Some((3, 0)));
    assert!(rt; open::<i32>(1, &[3, 3], b"ab", None) == Some((3, 0)));
    assert!(rt; open::<i32>(3, &[0, 1, 2, 1], b"ab", None) == Some((3, 2)));
    assert!(rt; open::<i64>(3, &[0, 1, 2, 3], b"ab", None) == Some((3, 2)));
    assert!(rt; open::<i64>(2, &[0, 1, -1], b"ab", None) == Some((3, 1)));
    assert!(rt; open::<i64>(2, &[0, 1, 9223372036854775807], b"ab", None) == Some((3, 1)));
    assert!(rt;
        open::<i32>(2, &[0, 2, 1], b"ab", Some(b"\x00")) == Some((3, 1)),
        "the offsets of a null row are looked at"
    );
}

#[test]
fn malformed_rows(rt: HostRuntime) {
    assert!(rt; open::<i32>(2, &[0, 1, 2], b"\xffb", None) == Some((5, 0)));
    assert!(rt; open::<i32>(2, &[0, 1, 2], b"a\xff", None) == Some((5, 1)));
    assert!(rt;
        open::<i64>(2, &[0, 1, 2], b"\xc3\xa9", None) == Some((5, 0)),
        "a character in two rows"
    );
    assert!(rt; open::<i64>(1, &[0, 2], b"\xc3\xa9", None) == None);
    assert!(rt;
        open::<i32>(2, &[0, 1, 2], b"a\xff", Some(b"\x01")) == None,
        "the text of a null row is not looked at"
    );
    assert!(rt;
        open::<i32>(3, &[0, 1, 2, 1], b"a\xff", None) == Some((5, 1)),
        "rows upward"
    );
}

#[test]
fn rows_are_read(rt: HostRuntime) -> Result<(), Fail> {
    let empty: OffsetColumn<i32> = OffsetColumn::empty();
    assert!(rt; empty.text(0) == None);
    let lent = Lent {
        offsets: &[1, 3, 3, 6],
        values: b"xabcde",
        validity: Some(b"\x05"),
    };
    let column: OffsetColumn<i32> = OffsetColumn::open(3, lent)?;
    assert!(rt; column.rows() == 3);
    assert!(rt; column.text(0) == Some("ab"));
    assert!(rt; column.text(1) == None);
    assert!(rt; column.text(2) == Some("cde"));
    assert!(rt; column.text(3) == None);
    let short: Lent<i32> = Lent {
        offsets: &[],
        values: b"",
        validity: None,
    };
    assert!(rt; told(OffsetColumn::open(1, short)) == Some((1, 0)));
    assert!(rt;
        column.rows() == 3,
        "beside a refused opening the column is as it was"
    );
    Ok(())
}
