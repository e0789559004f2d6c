// Modules, classes and functions with their places, and the fronts of a module.
use crate::fixtures::COUNTER;
use crate::readings::{parsed, shown, syntax, tokens_of};
use py_tokens::Token;
use std::alloc::Global;
use std::test::Fail;

/// A module with imports, a class, a predicate and a lock.
const LOCKED_CELL: &str = "from nagini_contracts.contracts import *

class Cell:
    def __init__(self) -> None:
        Ensures(Acc(self.v))
        Ensures(self.v == 0)
        self.v = 0

@Predicate
def cell_inv(c: Cell) -> bool:
    return Acc(c.v) and c.v >= 0

class CellLock(Lock[Cell]):
    @Predicate
    def invariant(self) -> bool:
        return cell_inv(self.get_locked())
";

#[test]
fn modules_have_their_places(rt: HostRuntime) -> Result<(), Fail> {
    let alloc = rt.alloc();
    for (text, shape) in [
        ("", "end@1:1"),
        ("\n", "end@2:1"),
        ("'doc'\n", "end@2:1"),
        ("from a import *\n", "end@2:1"),
        ("from a.b.c import d, e\n", "end@2:1"),
        ("from a import b\nfrom c import *\n", "end@3:1"),
        (
            "'d'\nfrom a import *\nclass A: pass\n",
            "class A@3:7{} end@4:1",
        ),
        ("class A: pass", "class A@1:7{} end@2:1"),
        ("# c\n\nclass A: pass\n", "class A@3:7{} end@4:1"),
        ("class A(): pass\n", "class A@1:7{} end@2:1"),
        ("class A(B): pass\n", "class A@1:7 B@1:9{} end@2:1"),
        ("class A(L[B]): pass\n", "class A@1:7 L[B]@1:9{} end@2:1"),
        ("class A(L['B']): pass\n", "class A@1:7 L[B]@1:9{} end@2:1"),
        (
            "class A(L[None]): pass\n",
            "class A@1:7 L[None]@1:9{} end@2:1",
        ),
        ("class A:\n    pass\n", "class A@1:7{} end@3:1"),
        (
            "class A:\n    'doc'\n    pass\n    pass\n",
            "class A@1:7{} end@5:1",
        ),
        ("class A:\n    'doc'\n", "class A@1:7{} end@3:1"),
        (
            "class A:\n    def f(self) -> int: pass\n    pass\n    @Pure\n    def g(self, x: int) -> bool:\n        return True\n",
            "class A@1:7{f@2:9(self@2:11,) int@2:20{pass@2:25;} @Pure g@5:9(self@5:11,x@5:17 : int@5:20,) bool@5:28{return@6:9 True@6:16;} } end@7:1",
        ),
        (
            "def f() -> None: pass\n",
            "f@1:5() None@1:12{pass@1:18;} end@2:1",
        ),
        (
            "def f(a, b: int, c: L[C],) -> L[C]: pass\n",
            "f@1:5(a@1:7,b@1:10 : int@1:13,c@1:18 : L[C]@1:21,) L[C]@1:31{pass@1:37;} end@2:1",
        ),
        (
            "def f() -> 'C': pass\n",
            "f@1:5() C@1:12{pass@1:17;} end@2:1",
        ),
        (
            "@A\n@B\ndef f() -> None: pass\n",
            "@A @B f@3:5() None@3:12{pass@3:18;} end@4:1",
        ),
        (
            "def f() -> None:\n    pass\nclass A: pass\n@B\ndef g() -> None:\n    pass\n",
            "f@1:5() None@1:12{pass@2:5;} class A@3:7{} @B g@5:5() None@5:12{pass@6:5;} end@7:1",
        ),
        (
            LOCKED_CELL,
            "class Cell@3:7{__init__@4:9(self@4:18,) None@4:27{eval@5:9 Ensures@5:9(Acc@5:17(self@5:21.v@5:26,)@5:17,)@5:9;eval@6:9 Ensures@6:9([self@6:17.v@6:22 ==@6:24 0@6:27]@6:24,)@6:9;assign@7:9 self@7:9.v@7:14 = 0@7:18;} } @Predicate cell_inv@10:5(c@10:14 : Cell@10:17,) bool@10:26{return@11:5 (Acc@11:12(c@11:16.v@11:18,)@11:12 and@11:21 [c@11:25.v@11:27 >=@11:29 0@11:32]@11:29);} class CellLock@13:7 Lock[Cell]@13:16{@Predicate invariant@15:9(self@15:19,) bool@15:28{return@16:9 cell_inv@16:16(self@16:25.get_locked@16:30()@16:30,)@16:16;} } end@17:1",
        ),
    ] {
        let Some(out) = shown(alloc, text.as_bytes()) else {
            return Err("no tree".into());
        };
        let out = std::str::from_utf8(&out).map_err(|_| "no text")?;
        assert_eq!(rt; out, shape, "{text}");
    }
    Ok(())
}

/// So many of a text's tokens, and its end; None where it has no tokens.
fn front_of(alloc: Global, text: &str, count: usize) -> Option<Vec<Token>> {
    let mut tokens = tokens_of(alloc, text.as_bytes())?;
    let end = tokens.pop()?;
    tokens.truncate(count);
    tokens.push(end).ok()?;
    Some(tokens)
}

// Nothing, the import, the two classes, the worker and the whole end behind 0, 7, 50, 88, 137 and all 244 tokens. The
// text's end stands at 29:1.
#[test]
fn a_front_of_a_module_is_a_module_or_ends_too_soon(rt: HostRuntime) -> Result<(), Fail> {
    let alloc = rt.alloc();
    for count in 0..245_usize {
        let Some(tokens) = front_of(alloc, COUNTER, count) else {
            return Err("no tokens".into());
        };
        assert_eq!(rt; tokens.len(), count + 1);
        let Some(answer) = parsed(alloc, &tokens) else {
            return Err("no end".into());
        };
        if [0, 7, 50, 88, 137, 244].contains(&count) {
            assert!(rt; answer.is_ok(), "{count}");
        } else {
            assert_eq!(rt; answer.err(), Some(syntax(29, 1)), "{count}");
        }
    }
    Ok(())
}
