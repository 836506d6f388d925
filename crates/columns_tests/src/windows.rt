use crate::report::told;
use columns::position_column::PositionColumn;
use source::repeated::Repeated;
use source::window::Window;
use source::{Positions, Source};
use std::test::Fail;

#[test]
fn windows_of_windows(rt: HostRuntime) -> Result<(), Fail> {
    let same = Repeated::new(Some("ab"), 18446744073709551615);
    assert!(rt; same.text(18446744073709551614) == Some("ab"));
    assert!(rt; same.text(18446744073709551615) == None);
    let window = Window::new(&same, 18446744073709551612, 3)?;
    assert!(rt; window.text(2) == Some("ab"));
    assert!(rt; window.text(3) == None);
    let inner = Window::new(&window, 1, 2)?;
    assert!(rt; inner.rows() == 2);
    assert!(rt; inner.text(2) == None);
    assert!(rt; told(Window::new(&window, 2, 2)) == Some((6, 0)));
    assert!(rt;
        told(Window::new(&same, 1, 18446744073709551615)) == Some((6, 0)),
        "the sum wraps"
    );
    assert!(rt; Window::new(&inner, 2, 0).is_ok());
    assert!(rt; told(Window::new(&inner, 3, 0)) == Some((6, 0)));
    Ok(())
}

#[test]
fn positions(rt: HostRuntime) -> Result<(), Fail> {
    assert!(rt; told(PositionColumn::open(3, &[1, -2], None)) == Some((1, 0)));
    assert!(rt; told(PositionColumn::open(1, &[1], Some(b""))) == Some((1, 0)));
    assert!(rt;
        told(PositionColumn::open(18446744073709551615, &[1], Some(b"\x01"))) == Some((1, 0))
    );
    assert!(rt; PositionColumn::open(0, &[], None).is_ok());
    let column = PositionColumn::open(3, &[1, -2, 3], Some(b"\x06"))?;
    assert!(rt; column.position(0) == None);
    assert!(rt; column.position(1) == Some(-2));
    assert!(rt; column.position(3) == None);
    let window = Window::of_positions(&column, 1, 2)?;
    assert!(rt; window.position(1) == Some(3));
    assert!(rt; window.position(2) == None);
    assert!(rt; told(Window::of_positions(&window, 1, 2)) == Some((6, 0)));
    Ok(())
}
