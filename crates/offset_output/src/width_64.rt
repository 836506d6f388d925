//! Signed 64-bit offsets.
use crate::width::OffsetWidth;

// Beside the other width's: what `try_from` answers is known of a given type, and not of any integer.
impl OffsetWidth for i64 {
    fn zero() -> i64 {
        0
    }

    fn end(start: usize, len: usize) -> Option<i64> {
        i64::try_from(start.checked_add(len)?).ok()
    }
}
