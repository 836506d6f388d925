//! The widths of offsets that can be written.
ghost use Rattle.std.specs.Prelude.{◌≡◌, ◌+◌, pos};
ghost use Rattle.offset_output.specs.Widths.{offset_at};
ghost use Rattle.std.specs.Option.{option_map};

use columns::width::Width;

/// A width whose offsets are made from places among bytes.
pub trait OffsetWidth: Width {
    /// The offset of the first byte.
    fn zero() -> Self
        ensures { Self.Width.number result ≡ pos 0 };

    /// Where a text ends; nothing where that is past the largest offset. No sum may wrap.
    fn end(start: usize, len: usize) -> Option<Self>
        ensures { option_map Self.Width.number result ≡ offset_at Self.Width.LARGEST (start + len) };
}
