//! The trims.
ghost use Rattle.std.specs.Prelude.{◌≡◌, length, take, drop};
ghost use Rattle.kernels.specs.laws.Divided.{divides_trim};
ghost use Rattle.kernels.specs.Calls.{of_trim, part_of_trim, trim_cuttable};
ghost use Rattle.kernels.specs.Trims.{set_at, sets_cuttable, sets_fault, sets_part};
ghost use Rattle.source.specs.Verdicts.{fault_of};
ghost use Rattle.split.specs.Fields.{part};
ghost use Rattle.std.specs.Option.{option_map};
ghost use Rattle.trim.specs.Trim.{trimmed};

use crate::characters::Characters;
use crate::pieces::{null, part_of};
use crate::span::Span;
use calls::Call;
use fault::Fault;
use output::Piece;
use runs::Divisible;
use source::Source;
use trim::trimmer::Trimmer;

impl<'a, D> Characters<'a, D> {
    /// The set of a row.
    pub fn set(&self, row: usize) -> Option<&'a str>
    where
        D: Source<'a>,
        ensures { option_map (λ x. x.now) result ≡ set_at D.Source.listed self.now row }
    {
        match self {
            Characters::Omitted => Some(" "),
            Characters::Single(set) => *set,
            Characters::Each(sets) => {
                if sets.rows == 1 {
                    return sets.text(0);
                }
                sets.text(row)
            }
        }
    }

    /// Refused for what is wrong with the sets of so many rows.
    pub fn check(&self, rows: usize) -> Result<(), Fault>
    where
        D: Source<'a>,
        ensures { fault_of result ≡ sets_fault D.Source.listed self.now rows }
    {
        let Characters::Each(sets) = self else {
            return Ok(());
        };
        sets.check(sets.source.rows())?;
        if sets.rows == 1 || sets.rows == rows {
            return Ok(());
        }
        Err(Fault::OperandRows)
    }

    /// The sets of so many rows from the row `at` on.
    pub fn part(&self, at: usize, rows: usize) -> Characters<'a, D>
        ensures { result ≡ sets_part self.now at rows }
    {
        match self {
            Characters::Omitted => Characters::Omitted,
            Characters::Single(set) => Characters::Single(*set),
            Characters::Each(sets) => {
                if sets.rows == 1 {
                    return Characters::Each(*sets);
                }
                Characters::Each(sets.part(at, rows))
            }
        }
    }

    /// Whether the sets can be cut alongside so many rows.
    pub fn is_cuttable(&self, rows: usize) -> bool
        ensures { result ≡ sets_cuttable self.now rows }
    {
        let Characters::Each(sets) = self else {
            return true;
        };
        sets.rows == 1 || sets.ends() && sets.rows == rows
    }
}

/// What remains of a row, and its place there.
fn trim_row<'t, T: Trimmer>(row: &'t str, set: &str) -> (&'t str, u64)
    ensures answer { part result ≡ trimmed T.left T.right set.now row.now }
    ensures within { result.0.now ≡ take (length result.0.now) (drop result.1 row.now) }
{
    T::trim(row, set)
}

/// A trim of a window; the trimmer says of which ends.
#[derive_where(Clone, Copy; T)]
pub struct Trim<'a, S, D, T> {
    pub window: Span<'a, S>,
    pub characters: Characters<'a, D>,
    pub trimmer: T,
}

impl<'a, S: Source<'a>, D: Source<'a>, T: Trimmer> Call<'a> for Trim<'a, S, D, T> {
    ghost request = { of_trim S.Source.listed D.Source.listed T.Trimmer.left T.Trimmer.right };

    fn start(&self) -> Result<(), Fault> {
        self.window.check(self.window.source.rows())?;
        self.characters.check(self.window.rows)
    }

    fn rows(&self) -> usize {
        self.window.rows
    }

    fn row(&self, row: usize) -> Result<Piece<'a>, Fault> {
        let Some(set) = self.characters.set(row) else {
            return Ok(null());
        };
        let Some(text) = self.window.text(row) else {
            return Ok(null());
        };
        Ok(part_of(trim_row::<T>(text, set), self.window.first + row))
    }
}

impl<'a, S: Source<'a>, D: Source<'a>, T: Trimmer + Copy> Divisible<'a> for Trim<'a, S, D, T> {
    ghost part = { part_of_trim };

    ghost cuttable = { trim_cuttable };

    fn window(&self, at: usize, rows: usize) -> Trim<'a, S, D, T> {
        Trim {
            window: self.window.part(at, rows),
            characters: self.characters.part(at, rows),
            trimmer: self.trimmer,
        }
    }

    fn is_cuttable(&self) -> bool {
        self.window.ends() && self.characters.is_cuttable(self.window.rows)
    }

    ghost divides = { divides_trim S.Source.listed D.Source.listed T.Trimmer.left T.Trimmer.right };
}
