//! The faults: why a column, a text, a window, a call or an output refused.
//! One plain enum, carried by `Result` and `?` through every layer.
#![tactic(auto)]

ghost use Rattle.std.specs.Prelude.{◌≡◌, Some};
ghost use Rattle.fault.specs.Faults.{number_of, layer_of, row_of, placed_at};
ghost use Rattle.fault.specs.Reports.{layer_name, reason_of, report};

use std::fmt;

/// Where a fault was found.
#[derive(Clone, Copy, PartialEq, Eq, Debug)]
pub enum Layer {
    /// While a column or a text was opened.
    Column,
    /// While a window was taken, at the start of a call, or at one of its rows.
    Call,
    /// When an output was given a row.
    Output,
}

/// Why something was refused. A case that concerns a row holds its number.
#[derive(Clone, Copy, PartialEq, Eq, Debug)]
pub enum Fault {
    /// A list lent for a column is too short for its rows.
    ShortList,
    /// A buffer end is below the one before it, or past the data bytes.
    BufferEnd,
    /// An offset is negative, below the one before it, or past the value bytes.
    Offset { row: usize },
    /// The view of a row that is not null breaks a rule of the layout.
    View { row: usize },
    /// A row that is not null, or a single text, is not well-formed UTF-8.
    Malformed { row: usize },
    /// A window reaches past the rows of what it is taken from.
    Window,
    /// A column operand has not as many rows as the window.
    OperandRows,
    /// Split's position is zero.
    ZeroPosition { row: usize },
    /// The output's row capacity is used up.
    RowsFull { row: usize },
    /// A text would end past the width's largest offset, or is longer than a view allows.
    TooLong { row: usize },
    /// A new buffer is needed, and the list of ends is full.
    EndsFull { row: usize },
    /// The value bytes do not suffice.
    BytesFull { row: usize },
}

impl Fault {
    // A number by listing, and no discriminant: a rule of the project has it listed, case by case, in `specs/`.
    /// The number under which the fault is reported.
    pub fn number(self) -> u8
        ensures { result ≡ number_of self }
    {
        match self {
            Fault::ShortList => 1,
            Fault::BufferEnd => 2,
            Fault::Offset { .. } => 3,
            Fault::View { .. } => 4,
            Fault::Malformed { .. } => 5,
            Fault::Window => 6,
            Fault::OperandRows => 7,
            Fault::ZeroPosition { .. } => 8,
            Fault::RowsFull { .. } => 9,
            Fault::TooLong { .. } => 10,
            Fault::EndsFull { .. } => 11,
            Fault::BytesFull { .. } => 12,
        }
    }

    /// The layer that found it.
    pub fn layer(self) -> Layer
        ensures { result ≡ layer_of self }
    {
        match self {
            Fault::ShortList
            | Fault::BufferEnd
            | Fault::Offset { .. }
            | Fault::View { .. }
            | Fault::Malformed { .. } => Layer::Column,
            Fault::Window | Fault::OperandRows | Fault::ZeroPosition { .. } => Layer::Call,
            Fault::RowsFull { .. }
            | Fault::TooLong { .. }
            | Fault::EndsFull { .. }
            | Fault::BytesFull { .. } => Layer::Output,
        }
    }

    /// The row that it concerns, counted within the column opened or the window; 0 where no row is concerned.
    pub fn row(self) -> usize
        ensures { result ≡ row_of self }
    {
        match self {
            Fault::ShortList | Fault::BufferEnd | Fault::Window | Fault::OperandRows => 0,
            Fault::Offset { row }
            | Fault::View { row }
            | Fault::Malformed { row }
            | Fault::ZeroPosition { row }
            | Fault::RowsFull { row }
            | Fault::TooLong { row }
            | Fault::EndsFull { row }
            | Fault::BytesFull { row } => row,
        }
    }

    /// The same fault, found at a row of a call: the call under way sets the row, and nothing else.
    pub fn at(self, row: usize) -> Fault
        ensures { result ≡ placed_at row self }
    {
        match self {
            Fault::ShortList
            | Fault::BufferEnd
            | Fault::Offset { .. }
            | Fault::View { .. }
            | Fault::Malformed { .. }
            | Fault::Window
            | Fault::OperandRows => self,
            Fault::ZeroPosition { .. } => Fault::ZeroPosition { row },
            Fault::RowsFull { .. } => Fault::RowsFull { row },
            Fault::TooLong { .. } => Fault::TooLong { row },
            Fault::EndsFull { .. } => Fault::EndsFull { row },
            Fault::BytesFull { .. } => Fault::BytesFull { row },
        }
    }

    /// What is wrong, in a few words.
    pub fn reason(self) -> &'static str
        ensures { result.now ≡ reason_of self }
    {
        match self {
            Fault::ShortList => "a list is too short for the rows",
            Fault::BufferEnd => "a buffer end is out of order or past the data",
            Fault::Offset { .. } => "an offset is out of order or past the values",
            Fault::View { .. } => "the view breaks a rule of the layout",
            Fault::Malformed { .. } => "not well-formed UTF-8",
            Fault::Window => "the window reaches past the rows",
            Fault::OperandRows => "an operand has another number of rows",
            Fault::ZeroPosition { .. } => "the field position is zero",
            Fault::RowsFull { .. } => "the row capacity is used up",
            Fault::TooLong { .. } => "the text is too long",
            Fault::EndsFull { .. } => "the list of buffer ends is full",
            Fault::BytesFull { .. } => "the value bytes do not suffice",
        }
    }
}

impl fmt::Display for Layer {
    ghost output = { λ l. Some (layer_name l) };

    fn fmt<W: fmt::Write>(&self, f: &mut fmt::Formatter<W>) -> fmt::Result {
        match self {
            Layer::Column => write!(f, "column"),
            Layer::Call => write!(f, "call"),
            Layer::Output => write!(f, "output"),
        }
    }
}

/// Its number, layer and row, and what is wrong.
impl fmt::Display for Fault {
    ghost output = { λ x. Some (report x) };

    fn fmt<W: fmt::Write>(&self, f: &mut fmt::Formatter<W>) -> fmt::Result {
        let number = self.number();
        let layer = self.layer();
        let row = self.row();
        let reason = self.reason();
        write!(f, "fault {number}, layer {layer}, row {row}: {reason}")
    }
}
