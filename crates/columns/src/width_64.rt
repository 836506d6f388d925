//! Signed 64-bit offsets.
ghost use Rattle.columns.specs.Reading.{itself};

use crate::width::Width;

impl Width for i64 {
    ghost number = { itself };

    ghost LARGEST = { 9223372036854775807 };

    const LARGEST: u64 = 9223372036854775807;

    fn place(self) -> Option<usize> {
        usize::try_from(self).ok()
    }
}
