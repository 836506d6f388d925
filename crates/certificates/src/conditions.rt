//! Condition lines, and the certificates that they stand for.
ghost use Rattle.std.specs.Prelude.{◌≡◌, Some};
ghost use Rattle.certificates.specs.Records.{judgement, read};
ghost use Rattle.certificates.specs.Reports.{refusal_text};

use crate::numerals::numeral;
use std::fmt;

/// The fields of a condition line as they stand in it.
#[derive(Clone, Copy)]
pub struct Condition<'t> {
    /// Tenths of a degree.
    pub temperature: &'t str,
    pub surface: &'t str,
    /// Minutes.
    pub warm_up: &'t str,
    // A flag beside the fields, and not a variant that holds them: they are printed of a line that is not whole too.
    /// Whether the line has these three fields behind its letter, and no more.
    pub whole: bool,
}

/// Why a condition line stands for no certificate: the first that applies.
#[derive(Clone, Copy, PartialEq, Eq, Debug)]
pub enum Refusal {
    /// Not a letter and three fields.
    FieldCount,
    /// No number from 150 to 300 tenths of a degree.
    Temperature,
    /// Not `dry`.
    Surface,
    /// No number of at least 20 minutes.
    WarmUp,
}

impl Condition<'_> {
    /// Whether the certificate holds.
    pub fn judge(&self) -> Result<(), Refusal>
        ensures { result ≡ judgement (read self.now) }
    {
        if !self.whole {
            return Err(Refusal::FieldCount);
        }
        if !matches!(numeral(self.temperature), Some(150..=300)) {
            return Err(Refusal::Temperature);
        }
        if self.surface != "dry" {
            return Err(Refusal::Surface);
        }
        if !matches!(numeral(self.warm_up), Some(20..=999)) {
            return Err(Refusal::WarmUp);
        }
        Ok(())
    }
}

impl fmt::Display for Refusal {
    ghost output = { λ refusal. Some (refusal_text refusal) };

    fn fmt<W: fmt::Write>(&self, f: &mut fmt::Formatter<W>) -> fmt::Result {
        match self {
            Refusal::FieldCount => write!(f, "not a letter and three fields"),
            Refusal::Temperature => write!(
                f,
                "temperature is not a number from 150 to 300 tenths of a degree"
            ),
            Refusal::Surface => write!(f, "surface is not dry"),
            Refusal::WarmUp => write!(f, "warm-up is not a number of at least 20 minutes"),
        }
    }
}
