//! The characters that a trim removes.
use crate::span::Span;

/// Omitted, which means a space; single, a text or null; or a window of a column with a text or null for each row, of
/// which one row counts as single.
#[derive_where(Clone, Copy)]
pub enum Characters<'a, D> {
    Omitted,
    Single(Option<&'a str>),
    Each(Span<'a, D>),
}
