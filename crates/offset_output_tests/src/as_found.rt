//! What every output promises of its memory, used by code that is generic over outputs.
ghost use Rattle.std.specs.Prelude.{◌≡◌, []};

use output::{Output, Piece};

/// Adds a row and discards it: all memory is as it was found.
pub fn tried<O: Output>(out: &mut O, piece: Piece<'_>)
    requires { O.pending out.old ≡ [] }
    ensures kept { O.kept out.new ≡ O.kept out.old }
    ensures memory { O.memory out.new ≡ O.memory out.old }
{
    let slip = out.open();
    let _ = out.add(piece);
    out.discard(slip);
}
