//! The view of a text: with the text itself, or with its place in a buffer.
ghost use Rattle.std.specs.Prelude.{◌≡◌, ◌+◌, ◌<◌, ◌≤◌, length};
ghost use Rattle.std.proofs.Math.Seq.{paste};
ghost use Rattle.view_cells.specs.Views.{long_view, short_view, view_of, word_bytes};

use writing::bytes::{put_text, wipe};

/// A text of up to so many bytes stands in its view.
pub const SHORT: usize = 12;

// That there is room for 16 bytes is asked of each writer: a place in a list is no value of its own that could hold it.
/// Writes a 32-bit number, little-endian.
fn put_word(bytes: &mut [u8], at: usize, n: u32)
    requires { at + 4 ≤ length bytes.old }
    ensures { bytes.new ≡ paste bytes.old at (word_bytes n) 4 }
{
    bytes[at..at + 4].copy_from_slice(&n.to_le_bytes());
}

/// Writes the view of a text of up to 12 bytes.
fn put_short(views: &mut [u8], at: usize, text: &[u8])
    requires room { at + 16 ≤ length views.old }
    requires short { length text.now ≤ 12 }
    ensures { views.new ≡ paste views.old at (short_view text.now) 16 }
{
    put_word(views, at, text.len() as u32);
    put_text(views, at + 4, text);
    wipe(views, at + 4 + text.len(), at + 16, 0);
}

/// Writes the view of a longer text, which lies in a buffer.
fn put_long(views: &mut [u8], at: usize, text: &[u8], buffer: u32, offset: u32)
    requires room { at + 16 ≤ length views.old }
    requires long { 12 < length text.now }
    requires small { length text.now ≤ 2147483647 }
    ensures { views.new ≡ paste views.old at (long_view text.now buffer offset) 16 }
{
    put_word(views, at, text.len() as u32);
    put_text(views, at + 4, &text[0..4]);
    put_word(views, at + 8, buffer);
    put_word(views, at + 12, offset);
}

/// Writes the view of a text; one of up to 12 bytes does not look at the buffer and the offset.
pub fn put_view(views: &mut [u8], at: usize, text: &[u8], buffer: u32, offset: u32)
    requires room { at + 16 ≤ length views.old }
    requires small { length text.now ≤ 2147483647 }
    ensures { views.new ≡ paste views.old at (view_of text.now buffer offset) 16 }
{
    if text.len() <= SHORT {
        put_short(views, at, text);
    } else {
        put_long(views, at, text, buffer, offset);
    }
}
