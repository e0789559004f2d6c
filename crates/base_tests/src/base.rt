// What no clause says: that calls succeed, and that the texts are those that a reader expects.
use py_base::{Kind, Place, Text, Units};
use std::test::Fail;

#[test]
fn units_are_exact(rt: HostRuntime) {
    for (n, d, want) in [
        (0, 1, false),
        (1, 0, false),
        (3, 2, false),
        (1, 16, true),
        (1, 17, false),
        (1, 1, true),
    ] {
        assert_eq!(rt; Units::of(n, d).is_some(), want, "{n}/{d}");
    }
    let third = Units::of(1, 3);
    let rest = Units::full().sub(Units::of(2, 3).unwrap_or(Units::full()));
    assert_eq!(rt; third, rest);
    assert_eq!(rt; Units::full().add(Units::full()), None);
    assert_eq!(rt; third.and_then(|part| part.sub(Units::full())), None);
}

#[test]
fn kinds_have_the_numbers_and_names_of_reports(rt: HostRuntime) {
    for (kind, number, name) in [
        (Kind::ReadPermission, 1, "ReadPermission"),
        (Kind::Assert, 5, "Assert"),
        (Kind::Undeclared, 15, "Undeclared"),
        (Kind::WaitLevel, 20, "WaitLevel"),
        (Kind::Undefined, 25, "Undefined"),
    ] {
        assert_eq!(rt; kind.number(), number, "{name}");
        assert_eq!(rt; kind.name(), name);
    }
}

#[test]
fn a_copy_has_the_bytes_of_its_text(rt: HostRuntime) -> Result<(), Fail> {
    let alloc = rt.alloc();
    let text = Text::of(vec![in alloc; 97, 98]?);
    let copy = text.copy(alloc).map_err(|_| "no memory")?;
    assert_eq!(rt; copy.bytes(), b"ab".as_slice());
    assert_eq!(rt; text.bytes(), b"ab".as_slice());
    Ok(())
}

#[test]
fn places_go_by_line_and_then_by_column(rt: HostRuntime) {
    let place = Place { line: 2, col: 5 };
    assert!(rt; place < Place { line: 2, col: 6 });
    assert!(rt; place < Place { line: 3, col: 1 });
    assert!(rt; Place { line: 1, col: 9 } < place);
}
