//! The count of lines by what became of them.
ghost use Rattle.std.specs.Prelude.{◌≡◌, ◌+◌};

pub mod counting;

/// What became of a line.
#[derive(Clone, Copy, PartialEq, Eq, Debug)]
pub enum Outcome {
    /// A condition line that stands for a certificate.
    Certified,
    /// A condition line that stands for none.
    Refused,
    Axle,
    End,
    /// A line whose first field names no kind.
    Unknown,
    /// A line that is no text.
    Damaged,
}

/// How many lines were read, and what became of them: the parts add up.
#[derive(Clone, Copy)]
pub struct Tally {
    lines: u64,
    certified: u64,
    refused: u64,
    axle: u64,
    end: u64,
    unknown: u64,
    damaged: u64,
    ghost adds_up: { certified + (refused + (axle + (end + (unknown + damaged)))) ≡ lines },
}
