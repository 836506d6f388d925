//! What an opening answered.
use fault::Fault;

// Stands in `views_tests` too: a crate of its own for it would be no plainer.
/// The fault's number and row, where there was one.
pub fn told<T: Drop>(opened: Result<T, Fault>) -> Option<(u8, usize)> {
    opened.err().map(|fault| (fault.number(), fault.row()))
}
