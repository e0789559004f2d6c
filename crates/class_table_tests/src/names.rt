// Names that are declared twice, built in or reserved, and `main`.
use crate::telling::tells;

#[test]
fn names_of_classes_and_functions_differ(rt: HostRuntime) {
    for (text, answer) in [
        ("", "NoMain 1:1"),
        ("# a\n# b\n", "NoMain 3:1"),
        (
            "def f() -> None:\n    pass\n\ndef f() -> None:\n    pass\n",
            "DuplicateName 4:5",
        ),
        (
            "class f:\n    pass\ndef f() -> None:\n    pass\n",
            "DuplicateName 3:5",
        ),
        (
            "def main() -> None:\n    pass\nclass main:\n    pass\n",
            "DuplicateName 3:7",
        ),
        ("class int:\n    pass\n", "DuplicateName 1:7"),
        ("class Exception:\n    pass\n", "DuplicateName 1:7"),
        ("def WaitLevel() -> None:\n    pass\n", "DuplicateName 1:5"),
        ("def __f() -> None:\n    pass\n", "DuplicateName 1:5"),
        ("def __init__() -> None:\n    pass\n", "DuplicateName 1:5"),
        ("class __A:\n    pass\n", "DuplicateName 1:7"),
        ("class main:\n    pass\n", "NoMain 3:1"),
        ("def main(x: int) -> None:\n    pass\n", "NoMain 3:1"),
        ("def main() -> int:\n    return 1\n", "NoMain 3:1"),
        ("@Pure\ndef main() -> None:\n    pass\n", "NoMain 4:1"),
    ] {
        assert!(rt; tells(rt.alloc(), text, answer), "{text}");
    }
}

#[test]
fn names_within_a_class_differ(rt: HostRuntime) {
    for (text, answer) in [
        (
            "class A:\n    def f(self) -> None:\n        pass\n    def f(self) -> None:\n        pass\n",
            "DuplicateName 4:9",
        ),
        (
            "class A:\n    def f(self) -> None:\n        pass\n    def __init__(self) -> None:\n        self.f = 1\n",
            "DuplicateName 5:14",
        ),
        (
            "class A:\n    def __init__(self) -> None:\n        self.f = 1\n    def f(self) -> None:\n        pass\n",
            "DuplicateName 4:9",
        ),
        (
            "class A:\n    def Old(self) -> None:\n        pass\n",
            "DuplicateName 2:9",
        ),
        (
            "class A:\n    def __init__(self) -> None:\n        self.Level = 1\n",
            "DuplicateName 3:14",
        ),
        (
            "class A:\n    def __f(self) -> None:\n        pass\n",
            "DuplicateName 2:9",
        ),
        (
            "class A:\n    def __init__(self) -> None:\n        self.__f = 1\n",
            "DuplicateName 3:14",
        ),
        (
            "class A:\n    def __init__(self) -> None:\n        self.__init__ = 1\n",
            "DuplicateName 3:14",
        ),
        // what stands behind the assignments at the head makes no field
        (
            "class A:\n    def __init__(self) -> None:\n        pass\n        self.Level = 1\ndef main() -> None:\n    pass\n",
            "Exception A __init__ main | Exception exc | A #0 | main 1",
        ),
    ] {
        assert!(rt; tells(rt.alloc(), text, answer), "{text}");
    }
}

#[test]
fn names_of_parameters_and_locals_are_not_built_in(rt: HostRuntime) {
    for (text, answer) in [
        (
            "def f(a: int, int: int) -> None:\n    pass\n",
            "DuplicateName 1:15",
        ),
        (
            "def main() -> None:\n    if True:\n        x = 1\n    else:\n        print = 1\n",
            "DuplicateName 5:9",
        ),
        (
            "def main() -> None:\n    try:\n        pass\n    except E:\n        (Acc) += 1\n",
            "DuplicateName 5:10",
        ),
        (
            "class A:\n    def f(self) -> None:\n        while True:\n            bool: int = 1\n",
            "DuplicateName 4:13",
        ),
        // names with underscores, and one name twice, are left to others
        (
            "def f(__x: int, __x: int) -> None:\n    __y = 1\n    __y = 2\ndef main() -> None:\n    f = 1\n",
            "Exception f main | Exception exc | main 1",
        ),
    ] {
        assert!(rt; tells(rt.alloc(), text, answer), "{text}");
    }
}

#[test]
fn the_first_fault_is_told(rt: HostRuntime) {
    for (text, answer) in [
        // by place
        (
            "class A(C):\n    pass\nclass A:\n    pass\n",
            "UnknownBase 1:9",
        ),
        (
            "def f(int: int) -> None:\n    pass\nclass A(A):\n    pass\n",
            "DuplicateName 1:7",
        ),
        // at one place
        (
            "class int(Exception):\n    def f(self) -> None:\n        pass\n",
            "DuplicateName 1:7",
        ),
    ] {
        assert!(rt; tells(rt.alloc(), text, answer), "{text}");
    }
}
