//! An upload as a view column: views of 16 bytes over one buffer.
use crate::layout::Layout;
use crate::lists::{Lists, Unheld};
use crate::validity::{all_valid, make_null};
use crate::values::Values;
use fault::Fault;
use std::alloc::Global;
use views::lent::{Buffers, Lent};
use views::view_column::ViewColumn;

/// The lists of a view column.
#[derive(Drop)]
pub struct ViewLists {
    views: Vec<u8>,
    data: Vec<u8>,
    ends: Vec<u64>,
    validity: Vec<u8>,
}

/// Puts the view of a text behind the others; refused where a word would not hold its length or its offset.
fn push_view(views: &mut Vec<u8>, text: &[u8], offset: usize) -> Result<(), Unheld> {
    let (Ok(length), Ok(place)) = (i32::try_from(text.len()), i32::try_from(offset)) else {
        return Err(Unheld::TooLarge(Layout::View));
    };
    views.extend_from_slice(&length.to_le_bytes())?;
    if text.len() <= 12 {
        views.extend_from_slice(text)?;
        views.extend_from_slice(&[0; 12][text.len()..])?;
    } else {
        views.extend_from_slice(&text[0..4])?;
        views.extend_from_slice(&[0, 0, 0, 0])?;
        views.extend_from_slice(&place.to_le_bytes())?;
    }
    Ok(())
}

impl ViewLists {
    /// What the rows from one on are opened over.
    fn lent<'a>(&'a self, first: usize, validity: Option<&'a [u8]>) -> Lent<'a> {
        Lent {
            views: self
                .views
                .as_slice()
                .get(first.saturating_mul(16)..)
                .unwrap_or(&[]),
            buffers: Buffers {
                bytes: self.data.as_slice(),
                ends: self.ends.as_slice(),
            },
            validity,
        }
    }

    /// The column of all rows.
    pub fn open(&self) -> Result<ViewColumn<'_>, Fault> {
        ViewColumn::open(self.rows(), self.lent(0, Some(self.validity.as_slice())))
    }
}

impl Lists for ViewLists {
    fn new(heap: Global, lines: Values) -> Result<ViewLists, Unheld> {
        let Values { bytes, ends } = lines;
        let mut views = Vec::new(heap);
        let mut start = 0;
        for end in ends.iter() {
            let end = *end as usize;
            let Some(text) = bytes.as_slice().get(start..end) else {
                return Err(Unheld::TooLarge(Layout::View));
            };
            push_view(&mut views, text, start)?;
            start = end;
        }
        let mut buffers = Vec::new(heap);
        buffers.push(bytes.len() as u64)?;
        let validity = all_valid(heap, ends.len())?;
        Ok(ViewLists {
            views,
            data: bytes,
            ends: buffers,
            validity,
        })
    }

    fn rows(&self) -> usize {
        self.views.len() / 16
    }

    fn check_from(&self, first: usize) -> Result<(), Fault> {
        ViewColumn::open(self.rows().saturating_sub(first), self.lent(first, None))?;
        Ok(())
    }

    fn make_null(&mut self, row: usize) {
        make_null(&mut self.validity, row);
    }
}
