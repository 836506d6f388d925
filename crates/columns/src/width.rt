//! The widths of offsets. A new width is one more impl.
ghost use Rattle.std.specs.Prelude.{◌≡◌, ℕ, ℤ};
ghost use Rattle.columns.specs.Offsets.{place_of};

/// A width means the number of each of its offsets, and states its largest one.
// Its impls give `place` alike: what `try_from` answers is known of a given type, and a library of numbers for one line is no plainer.
pub trait Width: Copy {
    ghost number: { Self → ℤ };

    ghost LARGEST: { ℕ };

    /// The largest offset.
    const LARGEST: u64;

    /// The offset as a place among bytes; nothing where it is negative.
    fn place(self) -> Option<usize>
        ensures { result ≡ place_of (number self) };
}
