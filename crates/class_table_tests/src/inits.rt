// The form of `__init__`.
use crate::telling::tells;

// Lines 1 to 5: a class A with a field, and B below it without an `__init__`.
const ABOVE: &str =
    "class A:\n    def __init__(self) -> None:\n        self.a = 1\nclass B(A):\n    pass\n";

fn tells_behind(alloc: std::alloc::Global, text: &str, answer: &str) -> bool {
    match format!(in alloc; "{}{}", ABOVE, text) {
        Ok(whole) => tells(alloc, &whole, answer),
        Err(_) => false,
    }
}

#[test]
fn an_init_has_no_result(rt: HostRuntime) {
    for (text, answer) in [
        (
            "class A:\n    def __init__(self) -> int:\n        return 1\n",
            "BadInit 2:9",
        ),
        (
            "class A:\n    def __init__(self) -> A:\n        pass\n",
            "BadInit 2:9",
        ),
    ] {
        assert!(rt; tells(rt.alloc(), text, answer), "{text}");
    }
}

#[test]
fn an_init_below_another_calls_it(rt: HostRuntime) {
    for (text, answer) in [
        // line 8 is the first statement
        (
            "class C(B):\n    def __init__(self) -> None:\n        pass\n",
            "BadInit 8:9",
        ),
        (
            "class C(B):\n    def __init__(self) -> None:\n        self.c = 1\n        super().__init__()\n",
            "BadInit 8:9",
        ),
        (
            "class C(A):\n    def __init__(self) -> None:\n        super(A).__init__()\n",
            "BadInit 8:9",
        ),
        (
            "class C(A):\n    def __init__(self) -> None:\n        super().init()\n",
            "BadInit 8:9",
        ),
        (
            "class C(A):\n    def __init__(self) -> None:\n        \"doc\"\n",
            "BadInit 7:9",
        ),
        (
            "class C(A):\n    def __init__(self) -> None:\n        Requires(True)\n        Ensures(True)\n",
            "BadInit 7:9",
        ),
        (
            "class C(A):\n    def __init__(self) -> None:\n        Requires(True)\n        Assert(True)\n        super().__init__()\n",
            "BadInit 9:9",
        ),
        (
            "class C(B):\n    def __init__(self) -> None:\n        super().__init__()\n        self.b = 1\n        self.a = 2\n",
            "DuplicateName 10:14",
        ),
        (
            "class C(B):\n    def a(self) -> None:\n        pass\n",
            "DuplicateName 7:9",
        ),
        (
            "class C(B):\n    def __init__(self) -> None:\n        \"doc\"\n        Ensures(True)\n        Exsures(E, True)\n        (super)().__init__(1)\n        (self).c = True\ndef main() -> None:\n    pass\n",
            "Exception A __init__ a B C c main | Exception exc | A a:int #0 | B<1 | C<2 c:bool #1 | main 2",
        ),
    ] {
        assert!(rt; tells_behind(rt.alloc(), text, answer), "{text}");
    }
}

#[test]
fn only_a_method_stands_for_one_of_a_base(rt: HostRuntime) {
    for (text, answer) in [
        (
            "class A:\n    def f(self) -> None:\n        pass\nclass B(A):\n    def __init__(self) -> None:\n        self.f = 1\n",
            "DuplicateName 6:14",
        ),
        (
            "class A:\n    def f(self) -> None:\n        pass\nclass B(A):\n    def f(self) -> None:\n        pass\n    def g(self) -> None:\n        pass\ndef main() -> None:\n    pass\n",
            "Exception A f B g main | Exception exc | A #0 | B<1 #1 #2 | main 3",
        ),
    ] {
        assert!(rt; tells(rt.alloc(), text, answer), "{text}");
    }
}
