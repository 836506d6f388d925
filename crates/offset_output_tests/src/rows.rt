//! Rows to add, and what an add answered.
use fault::Fault;
use output::Piece;

// These three stand in `view_output_tests` too: a crate of their own for them would be no plainer.
pub fn text(text: &str) -> Piece<'_> {
    Piece {
        text: Some(text),
        from: 0,
        place: 0,
    }
}

pub fn null() -> Piece<'static> {
    Piece {
        text: None,
        from: 0,
        place: 0,
    }
}

/// The number of the fault, where a row was refused.
pub fn refused(added: Result<(), Fault>) -> Option<u8> {
    added.err().map(|fault| fault.number())
}
