//! Signed 32-bit offsets.
ghost use Rattle.columns.specs.Reading.{itself};

use crate::width::Width;

impl Width for i32 {
    ghost number = { itself };

    ghost LARGEST = { 2147483647 };

    const LARGEST: u64 = 2147483647;

    fn place(self) -> Option<usize> {
        usize::try_from(self).ok()
    }
}
