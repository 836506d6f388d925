//! A call of any kind.
ghost use Rattle.std.specs.Prelude.{◌≡◌};
ghost use Rattle.steps.specs.Requests.{call_request};

use calls::Call;
use fault::Fault;
use kernels::cutting::{SplitPart, SubstrIndex};
use kernels::each::Each;
use kernels::single::Single;
use kernels::trimming::Trim;
use output::Piece;
use search::finder::Finder;
use source::{Positions, Source};
use trim::trimmer::{TrimBoth, TrimLeft, TrimRight};

// An enum, with an arm for each kind in every function: a list hands its calls out, and a `dyn` value may not be handed out.
/// One of the kinds of calls.
#[derive(Drop)]
pub enum AnyCall<'a, S, D, P> {
    Split(Single<'a, S, Finder<'a>, SplitPart>),
    SplitEach(Each<'a, S, D, P, SplitPart>),
    Index(Single<'a, S, Finder<'a>, SubstrIndex>),
    IndexEach(Each<'a, S, D, P, SubstrIndex>),
    Left(Trim<'a, S, D, TrimLeft>),
    Right(Trim<'a, S, D, TrimRight>),
    Both(Trim<'a, S, D, TrimBoth>),
}

impl<'a, S: Source<'a>, D: Source<'a>, P: Positions> Call<'a> for AnyCall<'a, S, D, P> {
    ghost request = { call_request S.Source.listed D.Source.listed P.Positions.numbered };

    fn start(&self) -> Result<(), Fault> {
        match self {
            AnyCall::Split(call) => call.start(),
            AnyCall::SplitEach(call) => call.start(),
            AnyCall::Index(call) => call.start(),
            AnyCall::IndexEach(call) => call.start(),
            AnyCall::Left(call) => call.start(),
            AnyCall::Right(call) => call.start(),
            AnyCall::Both(call) => call.start(),
        }
    }

    fn rows(&self) -> usize {
        match self {
            AnyCall::Split(call) => call.rows(),
            AnyCall::SplitEach(call) => call.rows(),
            AnyCall::Index(call) => call.rows(),
            AnyCall::IndexEach(call) => call.rows(),
            AnyCall::Left(call) => call.rows(),
            AnyCall::Right(call) => call.rows(),
            AnyCall::Both(call) => call.rows(),
        }
    }

    fn row(&self, row: usize) -> Result<Piece<'a>, Fault> {
        match self {
            AnyCall::Split(call) => call.row(row),
            AnyCall::SplitEach(call) => call.row(row),
            AnyCall::Index(call) => call.row(row),
            AnyCall::IndexEach(call) => call.row(row),
            AnyCall::Left(call) => call.row(row),
            AnyCall::Right(call) => call.row(row),
            AnyCall::Both(call) => call.row(row),
        }
    }
}
