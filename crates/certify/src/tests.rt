//! The two layouts of one upload.
use crate::lists::Lists;
use crate::offsets::OffsetLists;
use crate::values::Values;
use crate::view_lists::ViewLists;
use fault::Fault;
use source::Source;
use std::test::Fail;

/// Whether two sources have the same rows.
fn same_rows<'a, S: Source<'a>, T: Source<'a>>(a: &S, b: &T) -> bool {
    // A loop: a closure that asks sources has no proof, as `all` would take one (tried).
    for row in 0..a.rows() {
        if a.text(row) != b.text(row) {
            return false;
        }
    }
    a.rows() == b.rows()
}

/// Whether both layouts open, to the same rows.
fn agree(offsets: &OffsetLists, views: &ViewLists) -> Result<bool, Fault> {
    Ok(same_rows(&offsets.open()?, &views.open()?))
}

/// The text of a row of the offset layout is the one given.
fn reads(offsets: &OffsetLists, row: usize, text: Option<&str>) -> Result<bool, Fault> {
    Ok(offsets.open()?.text(row) == text)
}

// Rows of 12 and of 13 bytes, an empty one, and damaged ones at both ends and side by side.
#[test]
fn layouts_agree(rt: HostRuntime) -> Result<(), Fail> {
    let upload = b"\xff\nC;215;dry;25\nC;215;dry;250\n\nC;\xc3\n\x80\nE;1\r\n\xed\xa0\x80";
    let heap = rt.alloc();
    let mut offsets = OffsetLists::new(heap, Values::new(heap, upload)?)?;
    let mut views = ViewLists::new(heap, Values::new(heap, upload)?)?;
    offsets.null_damaged()?;
    views.null_damaged()?;
    assert_eq!(rt; offsets.rows(), 8);
    assert!(rt; reads(&offsets, 0, None)?);
    assert!(rt; reads(&offsets, 2, Some("C;215;dry;250"))?);
    assert!(rt; reads(&offsets, 6, Some("E;1"))?);
    assert!(rt; reads(&offsets, 7, None)?);
    assert!(rt; agree(&offsets, &views)?);
    Ok(())
}
