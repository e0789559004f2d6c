// Types of whole texts. The answers were worked out by hand.
use crate::telling::tells;

#[test]
fn a_call_stands_before_its_arguments(rt: HostRuntime) {
    let text =
        "def add(a: int, b: int) -> int:\n    return a + b\ndef main() -> None:\n    x = add(1, 2 * 3)\n    done = False\n    while not done and x < 10:\n        x += add(x, 1)\n        if x > 5:\n            done = True\n    print(x)\n";
    let answer =
        "types 2:12 int 2:14 int 2:16 int 4:5 int 4:9 int 4:13 int 4:16 int 4:18 int 4:20 int 5:5 bool 5:12 bool 6:11 bool 6:15 bool 6:20 bool 6:24 int 6:26 bool 6:28 int 7:9 int 7:14 int 7:18 int 7:21 int 8:12 int 8:14 bool 8:16 int 9:13 bool 9:20 bool 10:5 void 10:11 int | | x int done bool";
    assert!(rt; tells(rt.alloc(), text, answer));
}

#[test]
fn a_method_call_stands_behind_its_receiver(rt: HostRuntime) {
    let text =
        "class Cell:\n    def __init__(self, value: int) -> None:\n        self.value: int = value\n    def get(self) -> int:\n        return self.value\ndef pick(flag: bool, low: int, high: int) -> Optional[Cell]:\n    cell: Optional[Cell] = None\n    if flag == (low < 3):\n        cell = Cell(-low)\n    return cell\ndef main() -> None:\n    cell = pick(True, 1, 2)\n    if cell is not None:\n        n = cell.get() // 2\n        print(0 <= n < 5 != 6)\n";
    let answer =
        "types 3:9 obj1 3:14 int 3:27 int 5:16 obj1 5:21 int 7:5 opt1 7:28 void 8:8 bool 8:13 bool 8:17 int 8:21 bool 8:23 int 9:9 opt1 9:16 obj1 9:21 int 9:22 int 10:12 opt1 12:5 opt1 12:12 opt1 12:17 bool 12:23 int 12:26 int 13:8 opt1 13:13 bool 13:20 void 14:9 int 14:13 opt1 14:18 int 14:24 int 14:27 int 15:9 void 15:15 int 15:17 bool 15:20 int 15:24 int 15:29 int | | | cell opt1 | cell opt1 n int";
    assert!(rt; tells(rt.alloc(), text, answer));
}

#[test]
fn contracts_have_types(rt: HostRuntime) {
    let text =
        "class Box:\n    def __init__(self) -> None:\n        Ensures(Acc(self.n) and self.n == 0)\n        self.n: int = 0\n    def add(self, k: int) -> int:\n        Requires(Acc(self.n, 1/2) and k > 0)\n        Ensures(Acc(self.n, 1/2) and Implies(k > 1, Result() == Old(self.n) + k))\n        return self.n + k\ndef main() -> None:\n    b = Box()\n    print(b.add(2))\n";
    let answer =
        "types 3:9 void 3:17 bool 3:21 obj1 3:26 int 3:29 bool 3:33 obj1 3:38 int 3:40 bool 3:43 int 4:9 obj1 4:14 int 4:23 int 6:9 void 6:18 bool 6:22 obj1 6:27 int 6:30 int 6:31 void 6:32 int 6:35 bool 6:39 int 6:41 bool 6:43 int 7:9 void 7:17 bool 7:21 obj1 7:26 int 7:29 int 7:30 void 7:31 int 7:34 bool 7:38 bool 7:46 int 7:48 bool 7:50 int 7:53 int 7:62 bool 7:65 int 7:69 obj1 7:74 int 7:77 int 7:79 int 8:16 obj1 8:21 int 8:23 int 8:25 int 10:5 obj1 10:9 obj1 11:5 void 11:11 obj1 11:13 int 11:17 int | | | b obj1";
    assert!(rt; tells(rt.alloc(), text, answer));
}

#[test]
fn predicates_have_no_locals_and_threads_have_types(rt: HostRuntime) {
    let text =
        "class Box:\n    def __init__(self) -> None:\n        self.n: int = 0\n@Predicate\ndef good(b: Box) -> bool:\n    return Acc(b.n)\n@Pure\ndef size(b: Box) -> int:\n    return b.n + 1\ndef work(b: Box) -> None:\n    \"does\"\n    Requires(good(b))\n    Unfold(good(b))\n    k = (b.n)\n    b.n = k + 1\n    Fold(good(b))\ndef main() -> None:\n    b = Box()\n    Fold(good(b))\n    t = Thread(target=work, args=(b,), level=1)\n    t.start(work)\n";
    let answer =
        "types 3:9 obj1 3:14 int 3:23 int 6:12 bool 6:16 obj1 6:18 int 9:12 obj1 9:14 int 9:16 int 9:18 int 12:5 void 12:14 bool 12:19 obj1 13:5 void 13:12 bool 13:17 obj1 14:5 int 14:10 obj1 14:12 int 15:5 obj1 15:7 int 15:11 int 15:13 int 15:15 int 16:5 void 16:10 bool 16:15 obj1 18:5 obj1 18:9 obj1 19:5 void 19:10 bool 19:15 obj1 20:5 thread 20:9 thread 20:35 obj1 20:46 int 21:5 thread 21:7 void | | k int | b obj1 t thread";
    assert!(rt; tells(rt.alloc(), text, answer));
}

#[test]
fn the_first_fault_is_told(rt: HostRuntime) {
    for (text, answer) in [
        ("def main() -> None:\n    x = 1 + True\n", "BoolAsInt 2:13"),
        ("def main() -> None:\n    x = None + 1\n", "Mistyped 3 2:9"),
        (
            "def main() -> None:\n    if True:\n        x = 1\n    print(x)\n",
            "Unassigned 4:11",
        ),
    ] {
        assert!(rt; tells(rt.alloc(), text, answer), "{text}");
    }
}
