//! An upload as a column with 64-bit offsets.
use crate::layout::Layout;
use crate::lists::{Lists, Unheld};
use crate::validity::{all_valid, make_null};
use crate::values::Values;
use columns::lent::Lent;
use columns::offset_column::OffsetColumn;
use fault::Fault;
use std::alloc::Global;

/// The lists of an offset column.
#[derive(Drop)]
pub struct OffsetLists {
    offsets: Vec<i64>,
    values: Vec<u8>,
    validity: Vec<u8>,
}

impl OffsetLists {
    /// What the rows from one on are opened over.
    fn lent<'a>(&'a self, first: usize, validity: Option<&'a [u8]>) -> Lent<'a, i64> {
        Lent {
            offsets: self.offsets.as_slice().get(first..).unwrap_or(&[]),
            values: self.values.as_slice(),
            validity,
        }
    }

    /// The column of all rows.
    pub fn open(&self) -> Result<OffsetColumn<'_, i64>, Fault> {
        OffsetColumn::open(self.rows(), self.lent(0, Some(self.validity.as_slice())))
    }
}

impl Lists for OffsetLists {
    fn new(heap: Global, lines: Values) -> Result<OffsetLists, Unheld> {
        let Values { bytes, ends } = lines;
        let mut offsets = Vec::new(heap);
        offsets.push(0)?;
        for end in ends.iter() {
            let Ok(offset) = i64::try_from(*end) else {
                return Err(Unheld::TooLarge(Layout::Offset));
            };
            offsets.push(offset)?;
        }
        let validity = all_valid(heap, ends.len())?;
        Ok(OffsetLists {
            offsets,
            values: bytes,
            validity,
        })
    }

    fn rows(&self) -> usize {
        self.offsets.len().saturating_sub(1)
    }

    fn check_from(&self, first: usize) -> Result<(), Fault> {
        OffsetColumn::open(self.rows().saturating_sub(first), self.lent(first, None))?;
        Ok(())
    }

    fn make_null(&mut self, row: usize) {
        make_null(&mut self.validity, row);
    }
}
