//! A request for one row, of any kind, and its answer: what the vectors are replayed through.
#![tactic(auto)]

ghost use Rattle.std.specs.Prelude.{◌≡◌};
ghost use Rattle.std.specs.Result.{result_ok};
ghost use Rattle.split.specs.Fields.{answered};
ghost use Rattle.requests.specs.Answers.{answer_to};
ghost use Rattle.requests.specs.Names.{named};
ghost use Rattle.requests.specs.Samples.{SamplesHold};

use fault::Fault;
use index::substr_index;
use search::finder::Finder;
use split::split_part;
use std::str::FromStr;
use trim::trimmer::{TrimBoth, TrimLeft, TrimRight, Trimmer};

/// What is asked of a row.
#[derive(Clone, Copy, PartialEq, Eq, Debug)]
pub enum Operation {
    /// The field at a position.
    Split,
    /// What precedes or follows an occurrence.
    Index,
    /// The row without a head, a tail or both.
    Left,
    Right,
    Both,
}

/// A name that is no operation's.
#[derive(Clone, Copy, PartialEq, Eq, Debug)]
pub struct UnknownOperation;

/// The operation that a name asks for.
impl FromStr for Operation {
    type Err = UnknownOperation;

    ghost from_str_gives = { λ name r. result_ok r ≡ named name };

    fn from_str(name: &str) -> Result<Operation, UnknownOperation> {
        match name {
            "split" => Ok(Operation::Split),
            "index" => Ok(Operation::Index),
            "left" => Ok(Operation::Left),
            "right" => Ok(Operation::Right),
            "both" => Ok(Operation::Both),
            _ => Err(UnknownOperation),
        }
    }
}

/// The part of `row` that is asked for, and its place. The operand is a delimiter, or a set of
/// characters to trim; a trim does not look at the number. `samples` are rows worked out by hand.
pub fn answer<'t>(
    operation: Operation,
    row: &'t str,
    operand: &str,
    number: i64,
) -> Result<(&'t str, u64), Fault>
    ensures answer { answered result ≡ answer_to operation row.now operand.now number }
    ensures samples { SamplesHold }
{
    match operation {
        Operation::Split => split_part(row, &Finder::new(operand), number),
        Operation::Index => Ok(substr_index(row, &Finder::new(operand), number)),
        Operation::Left => Ok(TrimLeft::trim(row, operand)),
        Operation::Right => Ok(TrimRight::trim(row, operand)),
        Operation::Both => Ok(TrimBoth::trim(row, operand)),
    }
}
