//! A checker that is fed a text byte by byte, and tells whether it was well-formed.
ghost use Rattle.std.specs.Prelude.{◌≡◌};
ghost use Rattle.text.specs.Classes.{class_of};
ghost use Rattle.text.specs.Steps.{next, run, is_start};
ghost use Rattle.text.specs.declared.checker.State.TheVariants.{Start};

use crate::classes::{Class, class_of};

/// What is still to come of the sequence that has begun.
#[derive(Clone, Copy, PartialEq, Eq)]
pub enum State {
    /// Nothing: the next byte begins a sequence.
    Start,
    /// One byte, 80 to BF.
    One,
    /// Two bytes, 80 to BF each.
    Two,
    /// Three bytes, 80 to BF each.
    Three,
    /// A0 to BF, and then one byte more.
    AfterE0,
    /// 80 to 9F, and then one byte more.
    AfterEd,
    /// 90 to BF, and then two bytes more.
    AfterF0,
    /// 80 to 8F, and then two bytes more.
    AfterF4,
    /// The bytes so far begin no well-formed text.
    Broken,
}

/// Steps through a text in place; it may be fed in parts.
#[derive(Clone, Copy)]
pub struct Checker {
    state: State,
}

impl Checker {
    /// A checker that was fed nothing.
    pub fn new() -> Self
        ensures { result.state ≡ Start }
    {
        Checker {
            state: State::Start,
        }
    }

    /// Takes one byte more.
    pub fn step(&mut self, byte: u8)
        ensures { self.new.state ≡ next self.old.state (class_of byte) }
    {
        self.state = match (self.state, class_of(byte)) {
            (State::Start, Class::Ascii) => State::Start,
            (State::Start, Class::LeadTwo) => State::One,
            (State::Start, Class::LeadE0) => State::AfterE0,
            (State::Start, Class::LeadThree) => State::Two,
            (State::Start, Class::LeadEd) => State::AfterEd,
            (State::Start, Class::LeadF0) => State::AfterF0,
            (State::Start, Class::LeadFour) => State::Three,
            (State::Start, Class::LeadF4) => State::AfterF4,
            (State::One, Class::Low | Class::Middle | Class::High) => State::Start,
            (State::Two, Class::Low | Class::Middle | Class::High) => State::One,
            (State::Three, Class::Low | Class::Middle | Class::High) => State::Two,
            (State::AfterE0, Class::High) => State::One,
            (State::AfterEd, Class::Low | Class::Middle) => State::One,
            (State::AfterF0, Class::Middle | Class::High) => State::Two,
            (State::AfterF4, Class::Low) => State::Two,
            _ => State::Broken,
        };
    }

    /// Takes a part of a text, of any length.
    pub fn feed(&mut self, part: &[u8])
        ensures { self.new.state ≡ run self.old.state part.now }
    {
        for byte in part {
            self.step(*byte);
        }
    }

    /// Whether all that it was fed is well-formed, with no sequence begun and not ended.
    pub fn is_whole(&self) -> bool
        ensures { result ≡ is_start self.now.state }
    {
        self.state == State::Start
    }
}
