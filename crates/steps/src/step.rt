//! One call of a list, by numbers.

/// Rows of a column, from one on.
#[derive(Clone, Copy)]
pub struct Rows {
    pub first: usize,
    pub rows: usize,
}

/// The characters that a trim removes: omitted, single, or rows of the column of texts.
#[derive(Clone, Copy)]
pub enum Set<'d> {
    Omitted,
    Single(Option<&'d str>),
    Each(Rows),
}

/// What is done, and with which operands: single ones, or rows of the columns of texts and of positions.
#[derive(Clone, Copy)]
pub enum Operation<'d> {
    SplitPart {
        delimiter: Option<&'d str>,
        position: Option<i64>,
    },
    SplitPartEach {
        delimiters: Rows,
        positions: Rows,
    },
    SubstrIndex {
        delimiter: Option<&'d str>,
        count: Option<i64>,
    },
    SubstrIndexEach {
        delimiters: Rows,
        counts: Rows,
    },
    TrimLeft(Set<'d>),
    TrimRight(Set<'d>),
    TrimBoth(Set<'d>),
}

/// A call: the rows of its window, and what is done with them.
#[derive(Clone, Copy)]
pub struct Step<'d> {
    pub window: Rows,
    pub operation: Operation<'d>,
}
