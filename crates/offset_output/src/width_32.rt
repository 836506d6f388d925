//! Signed 32-bit offsets.
use crate::width::OffsetWidth;

// Beside the other width's: what `try_from` answers is known of a given type, and not of any integer.
impl OffsetWidth for i32 {
    fn zero() -> i32 {
        0
    }

    fn end(start: usize, len: usize) -> Option<i32> {
        i32::try_from(start.checked_add(len)?).ok()
    }
}
