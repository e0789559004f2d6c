// Texts that go wrong at one token.
use crate::readings::{refused, syntax};
use py_parser::fault::ParseFault;
use std::alloc::Global;
use std::test::Fail;

/// Why this has no tree as the body of a function on line 1, from column 5 of line 2 on.
fn refused_in_body(alloc: Global, lines: &str) -> Option<ParseFault> {
    let text = format!(in alloc; "def f() -> None:\n    {lines}\n").ok()?;
    refused(alloc, text.as_bytes())
}

#[test]
fn an_expression_goes_wrong_at_one_token(rt: HostRuntime) -> Result<(), Fail> {
    let alloc = rt.alloc();
    for (text, col) in [
        ("a or", 16),
        ("a or or b", 17),
        ("a and )", 18),
        ("not", 15),
        ("a < <", 16),
        ("a not b", 14),
        ("a is is b", 17),
        ("a + * b", 16),
        ("a * + b", 16),
        ("- )", 14),
        ("a.1", 14),
        ("a.(b)", 14),
        ("f(,)", 14),
        ("f(a b)", 16),
        ("f(a=b=c)", 17),
        ("f(a=)", 16),
        ("f(a,,)", 16),
        ("(,)", 13),
        ("(a b)", 15),
        ("(a,,)", 15),
        ("(a, b c)", 18),
        ("a[b]", 13),
        ("[a]", 12),
        ("a)", 13),
        ("a b", 14),
        ("a if b", 14),
        ("a in b", 14),
        ("lambda: a", 12),
    ] {
        let line = format!(in alloc; "return {text}")?;
        assert_eq!(rt;
            refused_in_body(alloc, &line),
            Some(syntax(2, col)),
            "{text}"
        );
    }
    Ok(())
}

#[test]
fn a_statement_of_one_line_goes_wrong_at_one_token(rt: HostRuntime) -> Result<(), Fail> {
    let alloc = rt.alloc();
    for (text, line, col) in [
        ("pass a", 2, 10),
        ("break 1", 2, 11),
        ("continue a", 2, 14),
        ("return )", 2, 12),
        ("return a b", 2, 14),
        ("raise", 2, 10),
        ("raise E", 2, 12),
        ("raise E(a)", 2, 13),
        ("raise 1", 2, 11),
        ("assert", 2, 11),
        ("a b", 2, 7),
        ("a : int", 2, 12),
        ("a : 1 = b", 2, 9),
        ("a : L[M = b", 2, 13),
        ("a : L[1] = b", 2, 11),
        ("a : L[] = b", 2, 11),
        ("a : L[M[N]] = b", 2, 12),
        ("a =", 2, 8),
        ("a = b = c", 2, 11),
        ("a +=", 2, 9),
        ("a += b += c", 2, 12),
        ("a /= b", 2, 8),
        ("a , b", 2, 7),
        ("= a", 2, 5),
    ] {
        assert_eq!(rt;
            refused_in_body(alloc, text),
            Some(syntax(line, col)),
            "{text}"
        );
    }
    Ok(())
}

#[test]
fn a_statement_with_blocks_goes_wrong_at_one_token(rt: HostRuntime) -> Result<(), Fail> {
    let alloc = rt.alloc();
    for (text, line, col) in [
        ("if :", 2, 8),
        ("if a pass", 2, 10),
        ("if a:\n    pass", 3, 5),
        ("if a: if b: pass", 2, 11),
        ("elif a: pass", 2, 5),
        ("else: pass", 2, 5),
        ("if a: pass\n    else b: pass", 3, 10),
        ("if a: pass\n    elif: pass", 3, 9),
        ("if a: pass\n    elif a pass", 3, 12),
        ("if a: pass\n    else: pass\n    elif b: pass", 4, 5),
        ("if a: pass\n    else: pass\n    else: pass", 4, 5),
        ("while: pass", 2, 10),
        ("while a pass", 2, 13),
        ("while a: pass\n    else: pass", 3, 5),
        ("with: pass", 2, 9),
        ("with a, b: pass", 2, 11),
        ("with a as b: pass", 2, 12),
        ("try a: pass", 2, 9),
        ("try: pass\n    pass", 3, 5),
        ("try: pass\n    else: pass", 3, 5),
        ("try: pass\n    except: pass", 3, 11),
        ("try: pass\n    except 1: pass", 3, 12),
        ("try: pass\n    except A as b: pass", 3, 14),
        ("try: pass\n    except A: pass\n    else pass", 4, 10),
        ("try: pass\n    finally: pass\n    except A: pass", 4, 5),
        ("try: pass\n    finally: pass\n    else: pass", 4, 5),
        (
            "try: pass\n    except A: pass\n    finally: pass\n    else: pass",
            5,
            5,
        ),
        (
            "try: pass\n    except A: pass\n    else: pass\n    except B: pass",
            5,
            5,
        ),
        ("try: pass\n    finally pass", 3, 13),
        ("for a in b: pass", 2, 5),
        ("del a", 2, 5),
        ("import a", 2, 5),
        ("def g() -> None: pass", 2, 5),
        ("class A: pass", 2, 5),
        ("@A", 2, 5),
        ("pass\n        pass", 3, 9),
        ("if a:\n        pass\n            pass", 4, 13),
    ] {
        assert_eq!(rt;
            refused_in_body(alloc, text),
            Some(syntax(line, col)),
            "{text}"
        );
    }
    Ok(())
}

#[test]
fn a_module_goes_wrong_at_one_token(rt: HostRuntime) -> Result<(), Fail> {
    let alloc = rt.alloc();
    for (text, line, col) in [
        ("pass\n", 1, 1),
        ("x = 1\n", 1, 1),
        ("'a' 'b'\n", 1, 5),
        ("'a'\n'b'\n", 2, 1),
        ("1\n", 1, 1),
        ("from import a\n", 1, 6),
        ("from a.1 import b\n", 1, 8),
        ("from .a import b\n", 1, 6),
        ("from a b\n", 1, 8),
        ("from a import\n", 1, 14),
        ("from a import (b)\n", 1, 15),
        ("from a import *, b\n", 1, 16),
        ("from a import b,\n", 1, 17),
        ("from a import b c\n", 1, 17),
        ("from a import b as c\n", 1, 17),
        ("import a\n", 1, 1),
        ("from a import b\n'd'\n", 2, 1),
        ("class A: pass\nfrom a import b\n", 2, 1),
        ("class: pass\n", 1, 6),
        ("class A pass\n", 1, 9),
        ("class A(B, C): pass\n", 1, 10),
        ("class A('B'): pass\n", 1, 9),
        ("class A(None): pass\n", 1, 9),
        ("class A(B[C[D]]): pass\n", 1, 12),
        ("class A(B[]): pass\n", 1, 11),
        ("class A(B[C]: pass\n", 1, 13),
        ("class A()pass\n", 1, 10),
        ("class A: x = 1\n", 1, 10),
        ("class A: 'd'\n", 1, 10),
        ("class A: pass pass\n", 1, 15),
        ("class A:\npass\n", 2, 1),
        ("class A:\n    x = 1\n", 2, 5),
        ("class A:\n    pass\n    'd'\n", 3, 5),
        ("class A:\n    'd' pass\n", 2, 9),
        ("class A:\n    class B: pass\n", 2, 5),
        ("class A:\n    @P\n    class B: pass\n", 3, 5),
        ("class A:\n    pass pass\n", 2, 10),
        ("class A: pass\n    pass\n", 2, 5),
        ("@A class B: pass\n", 1, 4),
        ("@A\nclass B: pass\n", 2, 1),
        ("@A\n", 2, 1),
        ("@A()\n", 1, 3),
        ("@A.b\n", 1, 3),
        ("@1\n", 1, 2),
        ("@A\n\n@B pass\n", 3, 4),
        ("def 1() -> None: pass\n", 1, 5),
        ("def f -> None: pass\n", 1, 7),
        ("def f(1) -> None: pass\n", 1, 7),
        ("def f(a b) -> None: pass\n", 1, 9),
        ("def f(a,,) -> None: pass\n", 1, 9),
        ("def f(,) -> None: pass\n", 1, 7),
        ("def f(a: 1) -> None: pass\n", 1, 10),
        ("def f(a=1) -> None: pass\n", 1, 8),
        ("def f(*a) -> None: pass\n", 1, 7),
        ("def f(a: int b) -> None: pass\n", 1, 14),
        ("def f(): pass\n", 1, 8),
        ("def f() -> : pass\n", 1, 12),
        ("def f() -> 1: pass\n", 1, 12),
        ("def f() -> L[]: pass\n", 1, 14),
        ("def f() -> L[M: pass\n", 1, 15),
        ("def f() -> None pass\n", 1, 17),
        ("def f() -> None:\npass\n", 2, 1),
        ("def f() -> None:\n", 2, 1),
        ("def f() -> None: if a: pass\n", 1, 18),
        ("def f() -> None: pass\n    pass\n", 2, 5),
        ("async def f() -> None: pass\n", 1, 1),
        ("  class A: pass\n", 1, 3),
        ("class A: pass\n)\n", 2, 1),
        ("def f() -> None:\n    return (a\n", 3, 1),
        ("def f() -> None:\n    (a\n    b)\n", 3, 5),
    ] {
        assert_eq!(rt;
            refused(alloc, text.as_bytes()),
            Some(syntax(line, col)),
            "{text}"
        );
    }
    Ok(())
}
