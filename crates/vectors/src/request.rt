//! A request and its known answer, as a line has them.
use crate::hex::{HexError, hex};
use requests::{Operation, answer};
use std::alloc::{AllocError, Global};
use text::open_text;

/// Why a request was not answered as the line has it.
#[derive(Clone, Copy, PartialEq, Eq, Debug)]
pub enum Difference {
    /// It has not six fields between tabs, or one that cannot be read.
    NoRequest,
    /// It was refused.
    Fault,
    Bytes,
    Place,
    /// There was no memory to read it.
    Memory(AllocError),
}

impl From<HexError> for Difference {
    fn from(error: HexError) -> Difference {
        match error {
            HexError::NoBytes => Difference::NoRequest,
            HexError::Memory(error) => Difference::Memory(error),
        }
    }
}

/// What is asked, and what the answer has to be.
#[derive(Drop)]
pub struct Request {
    operation: Operation,
    row: Vec<u8>,
    operand: Vec<u8>,
    number: i64,
    bytes: Vec<u8>,
    /// A line with a place below 0 leaves it open.
    place: Option<u64>,
}

impl Request {
    /// The request of a line.
    pub fn read(heap: Global, line: &[u8]) -> Result<Request, Difference> {
        let line = open_text(line).map_err(|_| Difference::NoRequest)?;
        // Asked for one by one, and no list of them: a line of nothing but tabs would need memory for each.
        let mut fields = line.split('\t');
        let (Some(name), Some(row), Some(operand), Some(number), Some(bytes), Some(place), None) = (
            fields.next(),
            fields.next(),
            fields.next(),
            fields.next(),
            fields.next(),
            fields.next(),
            fields.next(),
        ) else {
            return Err(Difference::NoRequest);
        };
        // A signed number first, and no Option: a line has one below 0 for a place that is not compared.
        let place: i64 = place.parse().map_err(|_| Difference::NoRequest)?;
        Ok(Request {
            operation: name.parse().map_err(|_| Difference::NoRequest)?,
            row: hex(heap, row)?,
            operand: hex(heap, operand)?,
            number: number.parse().map_err(|_| Difference::NoRequest)?,
            bytes: hex(heap, bytes)?,
            place: u64::try_from(place).ok(),
        })
    }

    /// Answers the request, and compares.
    pub fn replay(&self) -> Result<(), Difference> {
        let row = open_text(self.row.as_slice()).map_err(|_| Difference::NoRequest)?;
        let operand = open_text(self.operand.as_slice()).map_err(|_| Difference::NoRequest)?;
        let answer = answer(self.operation, row, operand, self.number);
        let (part, at) = answer.map_err(|_| Difference::Fault)?;
        if part.as_bytes() != self.bytes.as_slice() {
            return Err(Difference::Bytes);
        }
        if self.place.is_some_and(|place| place != at) {
            return Err(Difference::Place);
        }
        Ok(())
    }
}
