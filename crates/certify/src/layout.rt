//! How the lines of an upload are held.
use std::fmt;
use std::str::FromStr;

/// A column of text cut by offsets, or of views.
#[derive(Clone, Copy, PartialEq, Eq, Debug)]
pub enum Layout {
    Offset,
    View,
}

/// No layout has such a name.
#[derive(Clone, Copy, PartialEq, Eq, Debug)]
pub struct UnknownLayout;

impl FromStr for Layout {
    type Err = UnknownLayout;

    fn from_str(name: &str) -> Result<Layout, UnknownLayout> {
        match name {
            "offset" => Ok(Layout::Offset),
            "view" => Ok(Layout::View),
            _ => Err(UnknownLayout),
        }
    }
}

impl fmt::Display for Layout {
    fn fmt<W: fmt::Write>(&self, f: &mut fmt::Formatter<W>) -> fmt::Result {
        match self {
            Layout::Offset => write!(f, "offset"),
            Layout::View => write!(f, "view"),
        }
    }
}
