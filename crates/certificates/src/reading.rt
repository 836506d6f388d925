//! Reading a line: its kind, and a condition line's fields, cut by split at `;`.
ghost use Rattle.std.specs.Prelude.{◌≡◌, Ok};
ghost use Rattle.certificates.specs.Records.{cell, fields_of, kind_by, nth_field, read_told, told};

use crate::conditions::Condition;
use crate::kinds::Kind;
use fault::Fault;
use search::finder::Finder;
use split::{split_nth_finder, split_part};
use trim::trimmer::{TrimBoth, Trimmer};

/// The field of a line at a position, without the spaces that some benches pad it with.
fn field(line: &str, position: i64) -> Result<&str, Fault>
    ensures { told result ≡ cell line.now position }
{
    let (padded, _) = split_part(line, &Finder::new(";"), position)?;
    let (field, _) = TrimBoth::trim_spaces(padded);
    Ok(field)
}

/// The kind of a line.
pub fn line_kind(line: &str) -> Result<Kind, Fault>
    ensures { result ≡ Ok (kind_by (nth_field line.now 0)) }
{
    Ok(Kind::from(field(line, 1)?))
}

/// The fields of a condition line.
pub fn condition(line: &str) -> Result<Condition<'_>, Fault>
    ensures { read_told result ≡ Ok (fields_of line.now) }
{
    let semicolon = Finder::new(";");
    let temperature = field(line, 2)?;
    let surface = field(line, 3)?;
    let warm_up = field(line, 4)?;
    let whole = split_nth_finder(line, &semicolon, 3).is_some()
        && split_nth_finder(line, &semicolon, 4).is_none();
    Ok(Condition {
        temperature,
        surface,
        warm_up,
        whole,
    })
}
