//! The class of a byte, by a table of 256 entries.
ghost use Rattle.std.specs.Prelude.{◌≡◌, ℕ, ◌<◌};
ghost use Rattle.text.specs.Alike.{Alike};
ghost use Rattle.text.specs.Classes.{class_of};

use self::Class::{
    Ascii, High, LeadE0, LeadEd, LeadF0, LeadF4, LeadFour, LeadThree, LeadTwo, Low, Middle, Never,
};

/// Two bytes share a class exactly when the Unicode Standard's table of well-formed
/// sequences treats them alike in every place.
#[derive(Clone, Copy, PartialEq, Eq)]
pub enum Class {
    /// 00 to 7F
    Ascii,
    /// 80 to 8F
    Low,
    /// 90 to 9F
    Middle,
    /// A0 to BF
    High,
    /// C2 to DF
    LeadTwo,
    /// E0
    LeadE0,
    /// E1 to EC, EE and EF
    LeadThree,
    /// ED
    LeadEd,
    /// F0
    LeadF0,
    /// F1 to F3
    LeadFour,
    /// F4
    LeadF4,
    /// C0, C1 and F5 to FF
    Never,
}

#[rattlefmt::skip]
static CLASSES: [Class; 256] = [
    Ascii, Ascii, Ascii, Ascii, Ascii, Ascii, Ascii, Ascii, // 00
    Ascii, Ascii, Ascii, Ascii, Ascii, Ascii, Ascii, Ascii, // 08
    Ascii, Ascii, Ascii, Ascii, Ascii, Ascii, Ascii, Ascii, // 10
    Ascii, Ascii, Ascii, Ascii, Ascii, Ascii, Ascii, Ascii, // 18
    Ascii, Ascii, Ascii, Ascii, Ascii, Ascii, Ascii, Ascii, // 20
    Ascii, Ascii, Ascii, Ascii, Ascii, Ascii, Ascii, Ascii, // 28
    Ascii, Ascii, Ascii, Ascii, Ascii, Ascii, Ascii, Ascii, // 30
    Ascii, Ascii, Ascii, Ascii, Ascii, Ascii, Ascii, Ascii, // 38
    Ascii, Ascii, Ascii, Ascii, Ascii, Ascii, Ascii, Ascii, // 40
    Ascii, Ascii, Ascii, Ascii, Ascii, Ascii, Ascii, Ascii, // 48
    Ascii, Ascii, Ascii, Ascii, Ascii, Ascii, Ascii, Ascii, // 50
    Ascii, Ascii, Ascii, Ascii, Ascii, Ascii, Ascii, Ascii, // 58
    Ascii, Ascii, Ascii, Ascii, Ascii, Ascii, Ascii, Ascii, // 60
    Ascii, Ascii, Ascii, Ascii, Ascii, Ascii, Ascii, Ascii, // 68
    Ascii, Ascii, Ascii, Ascii, Ascii, Ascii, Ascii, Ascii, // 70
    Ascii, Ascii, Ascii, Ascii, Ascii, Ascii, Ascii, Ascii, // 78
    Low, Low, Low, Low, Low, Low, Low, Low, // 80
    Low, Low, Low, Low, Low, Low, Low, Low, // 88
    Middle, Middle, Middle, Middle, Middle, Middle, Middle, Middle, // 90
    Middle, Middle, Middle, Middle, Middle, Middle, Middle, Middle, // 98
    High, High, High, High, High, High, High, High, // A0
    High, High, High, High, High, High, High, High, // A8
    High, High, High, High, High, High, High, High, // B0
    High, High, High, High, High, High, High, High, // B8
    Never, Never, LeadTwo, LeadTwo, LeadTwo, LeadTwo, LeadTwo, LeadTwo, // C0
    LeadTwo, LeadTwo, LeadTwo, LeadTwo, LeadTwo, LeadTwo, LeadTwo, LeadTwo, // C8
    LeadTwo, LeadTwo, LeadTwo, LeadTwo, LeadTwo, LeadTwo, LeadTwo, LeadTwo, // D0
    LeadTwo, LeadTwo, LeadTwo, LeadTwo, LeadTwo, LeadTwo, LeadTwo, LeadTwo, // D8
    LeadE0, LeadThree, LeadThree, LeadThree, LeadThree, LeadThree, LeadThree, LeadThree, // E0
    LeadThree, LeadThree, LeadThree, LeadThree, LeadThree, LeadEd, LeadThree, LeadThree, // E8
    LeadF0, LeadFour, LeadFour, LeadFour, LeadF4, Never, Never, Never, // F0
    Never, Never, Never, Never, Never, Never, Never, Never, // F8
];

/// The class of a byte.
pub fn class_of(byte: u8) -> Class
    ensures value { result ≡ class_of byte }
    ensures shared { (other : ℕ) → other < 256 → (Alike byte other → class_of other ≡ result) × (class_of other ≡ result → Alike byte other) }
{
    CLASSES[byte as usize]
}
