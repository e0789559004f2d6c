// That the definitions say what a reader of the texts expects, and that calls succeed.
use py_base::Place;
use py_front::*;
use py_syntax::Module;
use std::alloc::Global;
use std::test::Fail;

// What the front answers to a text of a length that a test has.
fn read(alloc: Global, text: &str) -> Result<Module, FrontFault> {
    if 10_000 < text.len() {
        return Err(FrontFault::OutOfMemory);
    }
    front(alloc, text.as_bytes())
}

fn at(line: u32, col: u32) -> Place {
    Place { line, col }
}

#[test]
fn small_texts_have_modules(rt: HostRuntime) -> Result<(), Fail> {
    let alloc = rt.alloc();
    for (text, locals) in [
        ("def main() -> None:\n    pass\n", 0),
        ("def main() -> None:\n    x = 1\n", 1),
        ("def main() -> None:\n    x = (1 +\n  2)\n", 1),
        (
            "def main() -> None:\n    x = 1\n    y = x - 1\n    x = y\n",
            2,
        ),
        (
            "def main() -> None:\n    (x) = ((1))\n    assert ((x) == 1)\n",
            1,
        ),
    ] {
        let module = read(alloc, text).map_err(|_| "no module")?;
        let Some(method) = module.methods.get(0) else {
            return Err(Fail::from("no method"));
        };
        assert_eq!(rt; method.locals.len(), locals);
    }
    Ok(())
}

#[test]
fn brackets_count_for_nothing(rt: HostRuntime) -> Result<(), Fail> {
    let alloc = rt.alloc();
    let text = "def main() -> None:\n    x = 1\n    assert (x) == 1\n    print((1 + x))\n";
    let module = read(alloc, text).map_err(|_| "no module")?;
    let Some(method) = module.methods.get(0) else {
        return Err(Fail::from("no method"));
    };
    let body = "Items { items: [\
        Stmt { place: Place { line: 2, col: 5 }, form: Store(0, \
        Expr { place: Place { line: 2, col: 9 }, ty: Int, form: Num(1) }) }, \
        Stmt { place: Place { line: 3, col: 5 }, form: Check(\
        Expr { place: Place { line: 3, col: 16 }, ty: Bool, form: Bin(11, Boxed { inner: \
        Expr { place: Place { line: 3, col: 13 }, ty: Int, form: Local(0) } }, Boxed { inner: \
        Expr { place: Place { line: 3, col: 19 }, ty: Int, form: Num(1) } }) }) }, \
        Stmt { place: Place { line: 4, col: 5 }, form: Print(Items { items: [Value(\
        Expr { place: Place { line: 4, col: 14 }, ty: Int, form: Bin(1, Boxed { inner: \
        Expr { place: Place { line: 4, col: 12 }, ty: Int, form: Num(1) } }, Boxed { inner: \
        Expr { place: Place { line: 4, col: 16 }, ty: Int, form: Local(0) } }) })] }) }] }";
    assert_eq!(rt; format!(in alloc; "{:?}", method.body)?.as_str(), body);
    assert_eq!(rt; module.end, at(5, 1));
    Ok(())
}

#[test]
fn other_texts_have_faults(rt: HostRuntime) -> Result<(), Fail> {
    let alloc = rt.alloc();
    for (text, fault) in [
        (
            "def main() -> None:\n    x = y\n",
            FrontFault::Mistyped(at(2, 9), 2),
        ),
        (
            "def main() -> None:\n    x = 1 + 2 - 3\n",
            FrontFault::NotBuilt(at(2, 15)),
        ),
        (
            "def main() -> None:\n    print()\n",
            FrontFault::NotBuilt(at(2, 5)),
        ),
        (
            "def main() -> None:\n    print(1, 2)\n",
            FrontFault::NotBuilt(at(2, 14)),
        ),
        (
            "def main() -> None:\n    assert 1\n",
            FrontFault::Mistyped(at(2, 12), 4),
        ),
        (
            "def main() -> None:\n    assert 1 == 1 == 1\n",
            FrontFault::NotBuilt(at(2, 19)),
        ),
        (
            "def main() -> None:\n    x.f = 1\n",
            FrontFault::Mistyped(at(2, 5), 2),
        ),
        (
            "def main() -> None:\n    return\n",
            FrontFault::NotBuilt(at(2, 5)),
        ),
        (
            "def main() -> None:\n    pass\ndef main() -> None:\n    pass\n",
            FrontFault::DuplicateName(at(3, 5)),
        ),
        (
            "def main() -> int:\n    pass\n",
            FrontFault::NoMain(at(3, 1)),
        ),
        (
            "def main(x) -> None:\n    pass\n",
            FrontFault::NoMain(at(3, 1)),
        ),
        ("", FrontFault::NoMain(at(1, 1))),
        (
            "def main() -> None:\n    x = 007\n",
            FrontFault::BadCharacter(at(2, 10)),
        ),
        ("def main(\n", FrontFault::Syntax(at(2, 1))),
        (
            "def main() -> None:\n    \"\"\"doc\n",
            FrontFault::OpenString(at(2, 5)),
        ),
        (
            "def main() -> None:\n\tpass\n",
            FrontFault::TabInIndent(at(2, 1)),
        ),
        (
            "def main() -> None:\n    if True:\n        pass\n      pass\n",
            FrontFault::BadDedent(at(4, 7)),
        ),
    ] {
        match read(alloc, text) {
            Ok(_) => return Err(Fail::from("a module")),
            Err(found) => assert_eq!(rt; found, fault),
        }
    }
    Ok(())
}
