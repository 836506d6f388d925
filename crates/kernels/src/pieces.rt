//! What a call offers: null, or a part of a row.
ghost use Rattle.std.specs.Prelude.{◌≡◌};
ghost use Rattle.kernels.specs.Cuts.{null, piece};
ghost use Rattle.output.specs.Pieces.{piece_of};
ghost use Rattle.split.specs.Fields.{part};

use output::Piece;

/// A null row.
pub(crate) fn null<'t>() -> Piece<'t>
    ensures { piece_of result ≡ null }
{
    Piece {
        text: None,
        from: 0,
        place: 0,
    }
}

/// A part of the source's row numbered `from`.
pub(crate) fn part_of<'t>(cut: (&'t str, u64), from: usize) -> Piece<'t>
    ensures { piece_of result ≡ piece from (part cut.entry) }
{
    let (text, place) = cut;
    Piece {
        text: Some(text),
        from,
        place,
    }
}
