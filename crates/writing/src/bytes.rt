//! Bytes and numbers.
ghost use Rattle.std.specs.Prelude.{◌≡◌, ◌+◌, ◌-◌, ◌≤◌, length, replicate};
ghost use Rattle.std.proofs.Math.Seq.{paste};

/// Copies a text to a place.
pub fn put_text(bytes: &mut [u8], at: usize, text: &[u8])
    requires { at + length text.now ≤ length bytes.old }
    ensures { bytes.new ≡ paste bytes.old at text.now (length text.now) }
{
    bytes[at..at + text.len()].copy_from_slice(text);
}

/// Zeroes the numbers from one place to another, of whatever kind.
pub fn wipe<T: Copy>(numbers: &mut [T], from: usize, to: usize, zero: T)
    requires order { from ≤ to }
    requires within { to ≤ length numbers.old }
    ensures { numbers.new ≡ paste numbers.old from (replicate (to - from) zero) (to - from) }
{
    // Not `fill`: it asks that a `clone` is the value itself, which `Copy` alone does not say of a `T`.
    for number in numbers[from..to].iter_mut() {
        *number = zero;
    }
}
