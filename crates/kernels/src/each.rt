//! Split and index with column operands: a delimiter and a number for each row.
ghost use Rattle.kernels.specs.laws.Divided.{divides_each};
ghost use Rattle.kernels.specs.Calls.{each_cuttable, of_each, part_of_each};

use crate::cutting::Cutting;
use crate::pieces::{null, part_of};
use crate::span::Span;
use calls::Call;
use fault::Fault;
use output::Piece;
use runs::Divisible;
use search::finder::Finder;
use source::{Positions, Source};

/// A call with a window of delimiters and a window of numbers. A single operand is one that is repeated.
#[derive_where(Clone, Copy; K)]
pub struct Each<'a, S, D, P, K> {
    pub window: Span<'a, S>,
    pub delimiters: Span<'a, D>,
    pub numbers: Span<'a, P>,
    pub cutting: K,
}

impl<'t, 'a, S: Source<'t>, D: Source<'t>, P: Positions, K: Cutting> Call<'t>
    for Each<'a, S, D, P, K> {
    ghost request = { of_each S.Source.listed D.Source.listed P.Positions.numbered K.Cutting.cut };

    fn start(&self) -> Result<(), Fault> {
        self.window.check(self.window.source.rows())?;
        self.delimiters.check(self.delimiters.source.rows())?;
        self.numbers.check(self.numbers.source.rows())?;
        let rows = self.window.rows;
        if self.delimiters.rows != rows || self.numbers.rows != rows {
            return Err(Fault::OperandRows);
        }
        Ok(())
    }

    fn rows(&self) -> usize {
        self.window.rows
    }

    fn row(&self, row: usize) -> Result<Piece<'t>, Fault> {
        let Some(delimiter) = self.delimiters.text(row) else {
            return Ok(null());
        };
        let Some(number) = self.numbers.position(row) else {
            return Ok(null());
        };
        let Some(text) = self.window.text(row) else {
            return Ok(null());
        };
        let cut = self.cutting.cut_row(text, &Finder::new(delimiter), number)?;
        Ok(part_of(cut, self.window.first + row))
    }
}

impl<'t, 'a, S: Source<'t>, D: Source<'t>, P: Positions, K: Cutting + Copy> Divisible<'t>
    for Each<'a, S, D, P, K> {
    ghost part = { part_of_each };

    ghost cuttable = { each_cuttable };

    fn window(&self, at: usize, rows: usize) -> Each<'a, S, D, P, K> {
        Each {
            window: self.window.part(at, rows),
            delimiters: self.delimiters.part(at, rows),
            numbers: self.numbers.part(at, rows),
            cutting: self.cutting,
        }
    }

    fn is_cuttable(&self) -> bool {
        if !self.window.ends() || !self.delimiters.ends() || !self.numbers.ends() {
            return false;
        }
        self.delimiters.rows == self.window.rows && self.numbers.rows == self.window.rows
    }

    ghost divides = { divides_each S.Source.listed D.Source.listed P.Positions.numbered K.Cutting.cut };
}
