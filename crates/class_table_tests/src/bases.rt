// Bases, and the members of classes of locks and exceptions.
use crate::telling::tells;

#[test]
fn bases_are_classes_that_stand_before(rt: HostRuntime) {
    for (text, answer) in [
        (
            "def main() -> None:\n    return\nclass A(C):\n    pass\n",
            "UnknownBase 3:9",
        ),
        (
            "class A(B):\n    pass\nclass B:\n    pass\n",
            "BaseCycle 1:9",
        ),
        ("class A(A):\n    pass\n", "BaseCycle 1:9"),
        ("class A(int):\n    pass\n", "UnknownBase 1:9"),
        ("class A(Thread):\n    pass\n", "UnknownBase 1:9"),
        (
            "def f() -> None:\n    pass\nclass A(f):\n    pass\n",
            "UnknownBase 3:9",
        ),
        (
            "class A:\n    pass\nclass B(A[A]):\n    pass\n",
            "UnknownBase 3:9",
        ),
        ("class A(Optional[A]):\n    pass\n", "UnknownBase 1:9"),
        ("class A(Exception[A]):\n    pass\n", "UnknownBase 1:9"),
        (
            "class A:\n    pass\nclass B(A):\n    pass\nclass C(B):\n    pass\nclass E(Exception):\n    pass\nclass F(E):\n    \"doc\"\ndef main() -> None:\n    pass\n",
            "Exception A B C E F main | Exception exc | A | B<1 | C<2 | E<0 exc | F<4 exc | main 0",
        ),
    ] {
        assert!(rt; tells(rt.alloc(), text, answer), "{text}");
    }
}

#[test]
fn lock_classes_lock_a_class_and_have_one_member(rt: HostRuntime) {
    for (text, answer) in [
        ("class L(Lock):\n    pass\n", "UnknownBase 1:9"),
        ("class L(Lock[C]):\n    pass\n", "UnknownBase 1:9"),
        ("class L(Lock[int]):\n    pass\n", "UnknownBase 1:9"),
        ("class L(Lock[Exception]):\n    pass\n", "UnknownBase 1:9"),
        (
            "class L(Lock[E]):\n    pass\nclass E(Exception):\n    pass\n",
            "UnknownBase 1:9",
        ),
        (
            "class A(L):\n    pass\nclass L(Lock[A]):\n    @Predicate\n    def invariant(self) -> bool:\n        return True\n",
            "UnknownBase 1:9",
        ),
        (
            "class L(Lock[L]):\n    @Predicate\n    def invariant(self) -> bool:\n        return True\nclass A(L):\n    pass\n",
            "UnknownBase 5:9",
        ),
        ("class L(Lock[L]):\n    pass\n", "BadInit 1:7"),
        (
            "class L(Lock[L]):\n    def invariant(self) -> bool:\n        return True\n",
            "BadInit 1:7",
        ),
        (
            "class L(Lock[L]):\n    @Pure\n    def invariant(self) -> bool:\n        return True\n",
            "BadInit 1:7",
        ),
        (
            "class L(Lock[L]):\n    @Predicate\n    @Predicate\n    def invariant(self) -> bool:\n        return True\n",
            "BadInit 1:7",
        ),
        (
            "class L(Lock[L]):\n    @Predicate\n    def inv(self) -> bool:\n        return True\n",
            "BadInit 1:7",
        ),
        (
            "class L(Lock[L]):\n    @Predicate\n    def invariant(self) -> int:\n        return True\n",
            "BadInit 1:7",
        ),
        (
            "class L(Lock[L]):\n    @Predicate\n    def invariant(self, x: int) -> bool:\n        return True\n",
            "BadInit 1:7",
        ),
        (
            "class L(Lock[L]):\n    @Predicate\n    def invariant(self) -> bool:\n        return True\n    def f(self) -> None:\n        pass\n",
            "BadInit 1:7",
        ),
        (
            "class E(Exception):\n    def f(self) -> None:\n        pass\n",
            "BadInit 1:7",
        ),
        (
            "class E(Exception):\n    pass\nclass F(E):\n    def f(self) -> None:\n        pass\n",
            "BadInit 3:7",
        ),
        // the invariant is a predicate, and no method
        (
            "@Predicate\ndef p(c: C) -> bool:\n    return True\nclass L(Lock['C']):\n    \"doc\"\n    pass\n    @Predicate\n    def invariant(self) -> bool:\n        return True\nclass M(Lock[L]):\n    @Predicate\n    def invariant(self) -> bool:\n        return True\nclass C:\n    def f(self) -> None:\n        pass\n@Pure\ndef q() -> int:\n    return 1\ndef main() -> None:\n    pass\n",
            "Exception p L invariant M C f q main | Exception exc | L lock3,1 | M lock1,2 | C #0 | main 1",
        ),
    ] {
        assert!(rt; tells(rt.alloc(), text, answer), "{text}");
    }
}
