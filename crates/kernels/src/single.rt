//! Split and index with single operands.
ghost use Rattle.kernels.specs.laws.Divided.{divides_single};
ghost use Rattle.kernels.specs.Calls.{of_single, part_of_single, single_cuttable};

use crate::cutting::Cutting;
use crate::pieces::{null, part_of};
use crate::span::Span;
use calls::Call;
use fault::Fault;
use output::Piece;
use runs::Divisible;
use search::Searcher;
use source::Source;

/// A call with a single delimiter, a searcher or null, and a single number or null.
#[derive_where(Clone, Copy; F, K)]
pub struct Single<'a, S, F, K> {
    pub window: Span<'a, S>,
    pub delimiter: Option<F>,
    pub number: Option<i64>,
    pub cutting: K,
}

impl<'t, 'a, S: Source<'t>, F: Searcher, K: Cutting> Call<'t> for Single<'a, S, F, K> {
    ghost request = { of_single S.Source.listed F.Searcher.delimiter K.Cutting.cut K.Cutting.refused };

    fn start(&self) -> Result<(), Fault> {
        self.window.check(self.window.source.rows())?;
        if self.window.rows == 0 {
            return Ok(());
        }
        match (&self.delimiter, self.number) {
            (Some(_), Some(number)) => self.cutting.check(number),
            _ => Ok(()),
        }
    }

    fn rows(&self) -> usize {
        self.window.rows
    }

    fn row(&self, row: usize) -> Result<Piece<'t>, Fault> {
        let Some(finder) = &self.delimiter else {
            return Ok(null());
        };
        let Some(number) = self.number else {
            return Ok(null());
        };
        let Some(text) = self.window.text(row) else {
            return Ok(null());
        };
        let cut = self.cutting.cut_row(text, finder, number)?;
        Ok(part_of(cut, self.window.first + row))
    }
}

impl<'t, 'a, S: Source<'t>, F: Searcher + Copy, K: Cutting + Copy> Divisible<'t>
    for Single<'a, S, F, K> {
    ghost part = { part_of_single };

    ghost cuttable = { single_cuttable };

    fn window(&self, at: usize, rows: usize) -> Single<'a, S, F, K> {
        Single {
            window: self.window.part(at, rows),
            delimiter: self.delimiter,
            number: self.number,
            cutting: self.cutting,
        }
    }

    fn is_cuttable(&self) -> bool {
        self.window.ends()
    }

    ghost divides = { divides_single S.Source.listed F.Searcher.delimiter K.Cutting.cut K.Cutting.refused };
}
