//! The kinds of bench line.
ghost use Rattle.std.specs.Prelude.{◌≡◌};
ghost use Rattle.certificates.specs.Records.{kind_by};

/// What a line reports.
#[derive(Clone, Copy, PartialEq, Eq, Debug)]
pub enum Kind {
    /// `C`: the conditions of the run.
    ConditionLine,
    /// `A`: the forces at an axle.
    AxleLine,
    /// `E`: the end of a run.
    EndLine,
    /// Any other first field.
    UnknownLine,
}

/// The kind of a line, by its first field.
impl From<&str> for Kind {
    ghost from_gives = { λ letter kind. kind ≡ kind_by letter.now };

    fn from(letter: &str) -> Kind {
        match letter {
            "C" => Kind::ConditionLine,
            "A" => Kind::AxleLine,
            "E" => Kind::EndLine,
            _ => Kind::UnknownLine,
        }
    }
}
