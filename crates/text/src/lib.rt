//! Text: bytes that are well-formed UTF-8 by the Unicode Standard's table of byte sequences.
//! A byte's class, a checker that steps through a text, and the opening of bytes as text.
#![tactic(auto)]

ghost use Rattle.std.specs.Prelude.{◌≡◌, Decides};
ghost use Rattle.text.specs.Cutting.{SidesFormed, JoiningsFormed, SameAsStd};
ghost use Rattle.text.specs.Opening.{text_of, opened};
ghost use Rattle.text.specs.Steps.{formed};
ghost use Rattle.text.specs.Table.{WellFormed};

use checker::Checker;
use fault::Fault;

pub mod checker;
pub mod classes;
#[cfg(test)]
mod tests;

/// Whether the bytes are a well-formed text.
pub fn well_formed(bytes: &[u8]) -> bool
    ensures value { result ≡ formed bytes.now }
    ensures decides { Decides result (WellFormed bytes.now) }
{
    let mut checker = Checker::new();
    checker.feed(bytes);
    checker.is_whole()
}

/// The bytes as text, or the fault of a text that is not well-formed. Of every well-formed text
/// hold `sides`, that what stands before and after a delimiter in it is well-formed, and `joins`.
pub fn open_text(bytes: &[u8]) -> Result<&str, Fault>
    ensures answer { opened result ≡ text_of bytes.now }
    ensures sides { SidesFormed }
    ensures joins { JoiningsFormed }
    ensures same { SameAsStd }
{
    if !well_formed(bytes) {
        return Err(Fault::Malformed { row: 0 });
    }
    Ok(unsafe { std::str::from_utf8_unchecked(bytes) })
}
