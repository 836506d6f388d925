//! Examples of well-formed and damaged texts, by the Unicode Standard's table of byte sequences.
use super::*;
use fault::Layer;
use std::test::Fail;

#[test]
fn well_formed_texts(rt: HostRuntime) {
    assert!(rt; well_formed(b""), "empty");
    assert!(rt; well_formed(b"plain"), "ASCII");
    assert!(rt;
        well_formed(&[0xC3, 0xA8, 0xC3, 0xA9]),
        "two bytes to a character: è é"
    );
    assert!(rt; well_formed(&[0xE2, 0x82, 0xAC]), "three bytes: €");
    assert!(rt; well_formed(&[0xF0, 0x9F, 0x98, 0x80]), "four bytes: 😀");
    assert!(rt;
        well_formed(&[0xF4, 0x8F, 0xBF, 0xBF]),
        "the last code point, 10FFFF"
    );
}

#[test]
fn damaged_texts(rt: HostRuntime) {
    assert!(rt; !well_formed(&[0xC0, 0x80]), "overlong");
    assert!(rt; !well_formed(&[0xED, 0xA0, 0x80]), "a surrogate");
    assert!(rt; !well_formed(&[0xF4, 0x90, 0x80, 0x80]), "past 10FFFF");
    assert!(rt; !well_formed(&[0xE2, 0x82]), "cut off");
    assert!(rt; !well_formed(&[0x61, 0x80]), "a continuation byte alone");
}

#[test]
fn opening(rt: HostRuntime) -> Result<(), Fail> {
    assert_eq!(rt; open_text(&[0x61, 0xE2, 0x82, 0xAC])?, "a€");
    match open_text(&[0x61, 0xE2, 0x82]) {
        Ok(_) => Err(Fail::new("a damaged text was opened")),
        Err(fault) => {
            assert_eq!(rt; fault.number(), 5);
            assert_eq!(rt; fault.layer(), Layer::Column);
            assert_eq!(rt; fault.row(), 0);
            Ok(())
        }
    }
}
