// The chain of bases, and the lookup of methods.
use crate::telling::tree_of;
use class_table::{build, is_subclass, lookup};
use std::test::Fail;

// Classes 1 to 4, of which 2 is below 1, 3 below 2, and 4 alone. Method 0 is A.f, 1 is A.g, 2 is C.f, 3 is D.f and 4 is `main`.
const TEXT: &str =
    "class A:\n    def f(self) -> None:\n        pass\n    def g(self) -> None:\n        pass\nclass B(A):\n    pass\nclass C(B):\n    def f(self) -> None:\n        pass\nclass D:\n    def f(self) -> None:\n        pass\ndef main() -> None:\n    pass\n";

// The names are Exception, A, f, g, B, C, D and main.
const METHOD_NAMES: [u32; 5] = [2, 3, 2, 2, 7];

#[test]
fn classes_stand_above_others(rt: HostRuntime) -> Result<(), Fail> {
    let alloc = rt.alloc();
    let Some(raw) = tree_of(alloc, TEXT) else {
        return Err("no tree".into());
    };
    let Ok(classes) = build(alloc, &raw) else {
        return Err("no classes".into());
    };
    for (c, d, answer) in [
        (1, 1, true),
        (3, 3, true),
        (3, 2, true),
        (3, 1, true),
        (1, 3, false),
        (2, 3, false),
        (3, 4, false),
        (4, 1, false),
        (1, 0, false),
    ] {
        assert_eq!(rt;
            is_subclass(classes.list.as_slice(), c, d),
            answer,
            "{c} {d}"
        );
    }
    Ok(())
}

#[test]
fn the_nearest_class_gives_the_method(rt: HostRuntime) -> Result<(), Fail> {
    let alloc = rt.alloc();
    let Some(raw) = tree_of(alloc, TEXT) else {
        return Err("no tree".into());
    };
    let Ok(classes) = build(alloc, &raw) else {
        return Err("no classes".into());
    };
    for (c, name, answer) in [
        (1, 2, Some(0)),
        (2, 2, Some(0)),
        (3, 2, Some(2)),
        (3, 3, Some(1)),
        (4, 2, Some(3)),
        (4, 3, None),
        (1, 7, None),
    ] {
        let found = lookup(classes.list.as_slice(), &METHOD_NAMES, c, name);
        assert_eq!(rt; found, answer, "{c} {name}");
    }
    Ok(())
}
