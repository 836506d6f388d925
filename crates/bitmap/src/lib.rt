//! Validity bitmaps, as in Arrow's columnar format: the lowest bit of the first byte is row 0's, and 1 means valid.
//! Without a bitmap all rows are valid.
#![tactic(auto)]

ghost use Rattle.std.specs.Prelude.{◌≡◌};
ghost use Rattle.bitmap.specs.Validity.{bit, covers, valid};
ghost use Rattle.std.specs.Option.{option_map};

/// Whether the row's bit is 1. The bits past the bytes count as 0.
#[tactic(auto, unfolding(crate::specs::Validity::bit))]
fn bit(bytes: &[u8], row: usize) -> bool
    ensures { result ≡ bit bytes.now row }
{
    let byte = bytes.get(row / 8).copied().unwrap_or(0);
    (byte >> (row % 8)) % 2 == 1
}

/// Whether the row is not null. Past the bytes of a bitmap every row is null.
pub fn is_valid(validity: Option<&[u8]>, row: usize) -> bool
    ensures { result ≡ valid (option_map (λ x. x.now) validity.entry) row }
{
    validity.is_none_or(|bytes| bit(bytes, row))
}

/// Whether the bitmap, if there is one, has a bit for each of the rows.
pub fn covers(validity: Option<&[u8]>, rows: usize) -> bool
    ensures { result ≡ covers (option_map (λ x. x.now) validity.entry) rows }
{
    validity.is_none_or(|bytes| rows.div_ceil(8) <= bytes.len())
}
