//! Counting a line, and reading the counts.
ghost use Rattle.std.specs.Prelude.{◌≡◌, Some, is_ok, if◌then◌else◌};
ghost use Rattle.certificates.specs.Reports.{too_many};
ghost use Rattle.certificates.specs.Tallies.{counted, counts, none};

use super::{Outcome, Tally};
use std::fmt;

/// More lines than can be counted.
#[derive(Clone, Copy, PartialEq, Eq, Debug)]
pub struct TooManyLines;

impl Tally {
    /// No line yet.
    pub fn new() -> Self
        ensures { counts result ≡ none }
    {
        // `Default` is not derived: the derive is refused for a struct with a ghost field.
        Tally {
            lines: 0,
            certified: 0,
            refused: 0,
            axle: 0,
            end: 0,
            unknown: 0,
            damaged: 0,
        }
    }

    /// One line more; where no more can be counted nothing changes.
    pub fn count(&mut self, outcome: Outcome) -> Result<(), TooManyLines>
        ensures { counts self.new ≡ (if is_ok result then counted outcome (counts self.old) else counts self.old) }
    {
        self.lines = self.lines.checked_add(1).ok_or(TooManyLines)?;
        match outcome {
            Outcome::Certified => self.certified += 1,
            Outcome::Refused => self.refused += 1,
            Outcome::Axle => self.axle += 1,
            Outcome::End => self.end += 1,
            Outcome::Unknown => self.unknown += 1,
            Outcome::Damaged => self.damaged += 1,
        }
        Ok(())
    }
}

impl fmt::Display for Tally {
    fn fmt<W: fmt::Write>(&self, f: &mut fmt::Formatter<W>) -> fmt::Result {
        let Tally {
            lines,
            certified,
            refused,
            axle,
            end,
            unknown,
            damaged,
        } = *self;
        write!(
            f,
            "{lines} lines: {certified} certified, {refused} refused, {axle} axle, {end} end, {unknown} unknown, {damaged} damaged"
        )
    }
}

impl fmt::Display for TooManyLines {
    ghost output = { λ _. Some too_many };

    fn fmt<W: fmt::Write>(&self, f: &mut fmt::Formatter<W>) -> fmt::Result {
        write!(f, "more lines than can be counted")
    }
}

impl std::error::Error for TooManyLines {}
