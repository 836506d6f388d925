use fault::Fault;
use source::Source;
use std::test::Fail;
use views::lent::{Buffers, Lent};
use views::view_column::ViewColumn;

/// Two buffers of 3 and 20 bytes with an empty one between them.
const DATA: &[u8] = b"xyztemp,abcdefghijklm,z";

const ENDS: &[u64] = &[3, 3, 23];

// Stands in `columns_tests` too: a crate of its own for it would be no plainer.
/// The fault's number and row, where there was one.
fn told<T: Drop>(opened: Result<T, Fault>) -> Option<(u8, usize)> {
    opened.err().map(|fault| (fault.number(), fault.row()))
}

fn open(rows: usize, lent: Lent) -> Option<(u8, usize)> {
    told(ViewColumn::open(rows, lent))
}

/// Rows that are all valid.
fn open_views(rows: usize, views: &[u8]) -> Option<(u8, usize)> {
    open(
        rows,
        Lent {
            views,
            buffers: Buffers {
                bytes: DATA,
                ends: ENDS,
            },
            validity: None,
        },
    )
}

/// Rows with a bitmap.
fn open_valid<'a>(rows: usize, views: &'a [u8], validity: &'a [u8]) -> Option<(u8, usize)> {
    open(
        rows,
        Lent {
            views,
            buffers: Buffers {
                bytes: DATA,
                ends: ENDS,
            },
            validity: Some(validity),
        },
    )
}

/// No rows.
fn open_ends(ends: &[u64]) -> Option<(u8, usize)> {
    open(
        0,
        Lent {
            views: b"",
            buffers: Buffers { bytes: DATA, ends },
            validity: None,
        },
    )
}

#[test]
fn lists_and_ends(rt: HostRuntime) {
    assert!(rt; open_views(0, b"") == None);
    assert!(rt; open_views(1, b"\0\0\0\0\0\0\0\0\0\0\0\0\0\0\0") == Some((1, 0)));
    assert!(rt; open_valid(1, b"\0\0\0\0\0\0\0\0\0\0\0\0\0\0\0\0", b"") == Some((1, 0)));
    assert!(rt; open_views(18446744073709551615, b"") == Some((1, 0)));
    assert!(rt;
        open_views(1152921504606846976, b"") == Some((1, 0)),
        "16 times the rows wraps"
    );
    assert!(rt; open_ends(&[]) == None);
    assert!(rt; open_ends(&[3, 3, 23]) == None);
    assert!(rt; open_ends(&[24, 24]) == Some((2, 0)));
    assert!(rt; open_ends(&[0, 4, 3]) == Some((2, 0)));
    assert!(rt; open_ends(&[18446744073709551615]) == Some((2, 0)));
}

#[test]
fn short_views(rt: HostRuntime) {
    assert!(rt; open_views(1, b"\x0c\0\0\0abcdefghijkl") == None);
    assert!(rt;
        open_views(1, b"\x0b\0\0\0abcdefghijkl") == Some((4, 0)),
        "the padding"
    );
    assert!(rt; open_views(1, b"\x02\0\0\0\xc3\xa9\0\0\0\0\0\0\0\0\0\0") == None);
    assert!(rt; open_views(1, b"\x01\0\0\0\xc3\0\0\0\0\0\0\0\0\0\0\0") == Some((5, 0)));
    assert!(rt; open_views(1, b"\0\0\0\x80abcdefghijkl") == Some((4, 0)));
    assert!(rt;
        open_views(
            2,
            b"\0\0\0\0\0\0\0\0\0\0\0\0\0\0\0\0\0\0\0\0\0\0\0\0\0\0\0\0\0\0\0\x01",
        ) == Some((4, 1))
    );
    assert!(rt;
        open_views(
            2,
            b"\0\0\0\0\0\0\0\0\0\0\0\0\0\0\0\0\x01\0\0\0\xff\0\0\0\0\0\0\0\0\0\0\0",
        ) == Some((5, 1))
    );
    assert!(rt;
        open_valid(1, b"\x01\0\0\0\xff\0\0\0\0\0\0\0\0\0\0\x01", b"\x00") == None,
        "a null row is not looked at"
    );
}

#[test]
fn long_views(rt: HostRuntime) {
    assert!(rt; open_views(1, b"\x0d\0\0\0abcd\x02\0\0\0\x05\0\0\0") == None);
    assert!(rt;
        open_views(1, b"\x0d\0\0\0abcx\x02\0\0\0\x05\0\0\0") == Some((4, 0)),
        "the prefix"
    );
    assert!(rt;
        open_views(1, b"\x0d\0\0\0abcd\x03\0\0\0\x05\0\0\0") == Some((4, 0)),
        "no such buffer"
    );
    assert!(rt;
        open_views(1, b"\x0d\0\0\0abcd\x01\0\0\0\0\0\0\0") == Some((4, 0)),
        "an empty buffer"
    );
    assert!(rt; open_views(1, b"\x0d\0\0\0cdef\x02\0\0\0\x07\0\0\0") == None);
    assert!(rt;
        open_views(1, b"\x0d\0\0\0defg\x02\0\0\0\x08\0\0\0") == Some((4, 0)),
        "one byte past the buffer"
    );
    assert!(rt;
        open_views(1, b"\x0d\0\0\0abcd\x02\0\0\0\xf3\xff\xff\x7f") == Some((4, 0)),
        "past 2147483647"
    );
}

#[test]
fn rows_are_read(rt: HostRuntime) -> Result<(), Fail> {
    let views =
        b"\x14\0\0\0temp\x02\0\0\0\0\0\0\0\x02\0\0\0hi\0\0\0\0\0\0\0\0\0\0\x0d\0\0\0abcd\x02\0\0\0\x05\0\0\0";
    let lent = Lent {
        views,
        buffers: Buffers {
            bytes: DATA,
            ends: ENDS,
        },
        validity: Some(b"\x07"),
    };
    let column = ViewColumn::open(3, lent)?;
    assert!(rt; column.rows() == 3);
    assert!(rt; column.text(0) == Some("temp,abcdefghijklm,z"));
    assert!(rt; column.text(1) == Some("hi"));
    assert!(rt; column.text(2) == Some("abcdefghijklm"));
    assert!(rt; column.text(3) == None);
    assert!(rt; column.place(0) == Some((2, 0)));
    assert!(rt; column.place(1) == None);
    assert!(rt; column.place(2) == Some((2, 5)));
    Ok(())
}
