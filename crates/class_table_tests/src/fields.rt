// The fields that an `__init__` makes, and their types.
use crate::telling::tells;

const FRONT: &str =
    "class C:\n    def __init__(self, n: int, b: bool, c: C, o: Optional[C], t: Thread, e: E, u) -> None:\n";

const BACK: &str = "class E(Exception):\n    pass\ndef main() -> None:\n    pass\n";

// Whether a class with these statements in its `__init__` has these names and fields.
fn makes(alloc: std::alloc::Global, body: &str, names: &str, fields: &str) -> bool {
    let Ok(text) = format!(in alloc; "{}{}{}", FRONT, body, BACK) else {
        return false;
    };
    let Ok(answer) = format!(in alloc;
        "Exception C __init__ {names}E main | Exception exc | C {fields}#0 | E<0 exc | main 1"
    ) else {
        return false;
    };
    tells(alloc, &text, &answer)
}

#[test]
fn values_without_annotations_have_types(rt: HostRuntime) {
    for (body, names, fields) in [
        (
            "        self.x = 1\n        self.y = True\n",
            "x y ",
            "x:int y:bool ",
        ),
        (
            "        self.x = n\n        self.y = b\n",
            "x y ",
            "x:int y:bool ",
        ),
        (
            "        self.x = c\n        self.y = o\n",
            "x y ",
            "x:obj1 y:opt1 ",
        ),
        ("        self.x = t\n", "x ", "x:thread "),
        (
            "        self.x = e\n        self.y = u\n",
            "x y ",
            "x:void y:void ",
        ),
        (
            "        self.x = -n + 2 * (n // 3)\n        self.y = n / 2\n",
            "x y ",
            "x:int y:void ",
        ),
        (
            "        self.x = n < 1 <= 2\n        self.y = not b and c is c or b\n",
            "x y ",
            "x:bool y:bool ",
        ),
    ] {
        assert!(rt; makes(rt.alloc(), body, names, fields), "{body}");
    }
}

#[test]
fn annotations_give_types(rt: HostRuntime) {
    for (body, names, fields) in [
        (
            "        self.x: int = c.f\n        self.y: 'bool' = None\n",
            "x y ",
            "x:int y:bool ",
        ),
        (
            "        self.x: Optional['C'] = None\n        self.y: C = (c)\n",
            "x y ",
            "x:opt1 y:obj1 ",
        ),
        (
            "        self.x: E = e\n        self.y: Optional[int] = n\n        self.z: D = n\n",
            "x y z ",
            "x:void y:void z:void ",
        ),
    ] {
        assert!(rt; makes(rt.alloc(), body, names, fields), "{body}");
    }
}

#[test]
fn other_statements_end_the_fields(rt: HostRuntime) {
    for (body, names, fields) in [
        (
            "        self.x = 1\n        self.x = 2\n        self.y = 3\n",
            "x ",
            "x:int ",
        ),
        (
            "        self.x = 1\n        pass\n        self.y = 3\n",
            "x ",
            "x:int ",
        ),
        ("        self.x = 1\n        self.y = f()\n", "x ", "x:int "),
        (
            "        self.x = 1\n        self.y: int = f()\n",
            "x ",
            "x:int ",
        ),
        (
            "        self.x = 1\n        self.y = self.x\n",
            "x ",
            "x:int ",
        ),
        (
            "        self.x = 1\n        self.y: int = self.x\n",
            "x ",
            "x:int ",
        ),
        (
            "        self.x = 1\n        self.y: C = self\n",
            "x ",
            "x:int ",
        ),
        (
            "        self.x = 1\n        self.y = None\n",
            "x ",
            "x:int ",
        ),
        ("        self.x = 1\n        self.y = c.f\n", "x ", "x:int "),
        ("        self.x = 1\n        self.y = z\n", "x ", "x:int "),
        ("        self.x = 1\n        c.y = 1\n", "x ", "x:int "),
        ("        self.x = 1\n        y = 1\n", "x ", "x:int "),
        ("        self.x = 1\n        self.y += 1\n", "x ", "x:int "),
        ("        pass\n        self.x = 1\n", "", ""),
    ] {
        assert!(rt; makes(rt.alloc(), body, names, fields), "{body}");
    }
}
