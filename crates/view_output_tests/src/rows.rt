//! Rows to add, and what adding them answered.
use fault::Fault;
use output::{Counts, Output, Piece};
use view_memory::memory::Memory;
use view_output::view_output::ViewOutput;

// These three stand in `offset_output_tests` too: a crate of their own for them would be no plainer.
pub fn text(text: &str) -> Piece<'_> {
    Piece {
        text: Some(text),
        from: 0,
        place: 0,
    }
}

pub fn null() -> Piece<'static> {
    Piece {
        text: None,
        from: 0,
        place: 0,
    }
}

/// The number of the fault, where a row was refused.
pub fn refused(added: Result<(), Fault>) -> Option<u8> {
    added.err().map(|fault| fault.number())
}

// Stands in `offset_output_tests` too: a crate of its own for it would be no plainer.
/// Adds the texts, up to one that is refused: the number of its fault.
fn add_all(out: &mut ViewOutput<'_>, texts: &[&str]) -> Option<u8> {
    let slip = out.open();
    let added = texts.iter().try_for_each(|t| out.add(text(t)));
    out.keep(slip);
    refused(added)
}

/// The fault's number, and the counts of the texts before it.
pub fn written(
    views: &mut [u8],
    validity: &mut [u8],
    ends: &mut [u64],
    bytes: &mut [u8],
    texts: &[&str],
) -> (Option<u8>, Counts) {
    let mut out = ViewOutput::new(Memory {
        views,
        validity,
        ends,
        bytes,
    });
    let number = add_all(&mut out, texts);
    let (counts, memory) = out.finish();
    let Memory {
        views: _,
        validity: _,
        ends: _,
        bytes: _,
    } = memory;
    (number, counts)
}
