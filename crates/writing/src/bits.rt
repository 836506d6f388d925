//! Validity bits, lowest first.
ghost use Rattle.std.specs.Prelude.{◌≡◌, ◌*◌, ◌/◌, ◌%◌, ◌^◌, ◌<◌, length, slice_index, slice_set};
ghost use Rattle.writing.specs.Bitmaps.{marked};

/// Sets the bit of a row.
pub fn mark(bitmap: &mut [u8], row: usize)
    requires { row < 8 * length bitmap.old }
    ensures { bitmap.new ≡ marked bitmap.old row }
{
    bitmap[row / 8] |= 1 << (row % 8);
}

/// Zeroes the bits of a byte from a row's on.
pub fn unmark(bitmap: &mut [u8], row: usize)
    requires { row < 8 * length bitmap.old }
    ensures { bitmap.new ≡ slice_set bitmap.old (row / 8) (slice_index bitmap.old (row / 8) % 2 ^ (row % 8)) }
{
    bitmap[row / 8] &= (1 << (row % 8)) - 1;
}
