// Statements and expressions with their places.
use crate::readings::shown;
use std::alloc::Global;
use std::test::Fail;

/// The tree of a function on line 1, named at its column 5, with these lines as its body.
fn body(alloc: Global, lines: &str) -> Option<Vec<u8>> {
    let text = format!(in alloc; "def f() -> None:\n{lines}").ok()?;
    shown(alloc, text.as_bytes())
}

#[test]
fn statements_of_one_line_have_their_places(rt: HostRuntime) -> Result<(), Fail> {
    let alloc = rt.alloc();
    for (text, shape) in [
        ("pass", "pass@2:5;"),
        ("break", "break@2:5;"),
        ("continue", "continue@2:5;"),
        ("return", "return@2:5;"),
        ("return a", "return@2:5 a@2:12;"),
        ("raise E()", "raise@2:5 E@2:11;"),
        ("assert a", "assert@2:5 a@2:12;"),
        ("a", "eval@2:5 a@2:5;"),
        ("f(a)", "eval@2:5 f@2:5(a@2:7,)@2:5;"),
        ("a : int = b", "declare@2:5 a@2:5 : int@2:9 = b@2:15;"),
        (
            "a : Lock[Cell] = b",
            "declare@2:5 a@2:5 : Lock[Cell]@2:9 = b@2:22;",
        ),
        ("a : 'C' = b", "declare@2:5 a@2:5 : C@2:9 = b@2:15;"),
        ("a : None = b", "declare@2:5 a@2:5 : None@2:9 = b@2:16;"),
        ("a : L['C'] = b", "declare@2:5 a@2:5 : L[C]@2:9 = b@2:18;"),
        (
            "a : L[None] = b",
            "declare@2:5 a@2:5 : L[None]@2:9 = b@2:19;",
        ),
        (
            "a.x : int = b",
            "declare@2:5 a@2:5.x@2:7 : int@2:11 = b@2:17;",
        ),
        ("a = b", "assign@2:5 a@2:5 = b@2:9;"),
        ("a.x = b", "assign@2:5 a@2:5.x@2:7 = b@2:11;"),
        ("a += b", "augment@2:5 a@2:5 +@2:7 b@2:10;"),
        ("a -= b", "augment@2:5 a@2:5 -@2:7 b@2:10;"),
        ("a *= b", "augment@2:5 a@2:5 *@2:7 b@2:10;"),
        ("a //= b", "augment@2:5 a@2:5 //@2:7 b@2:11;"),
        ("a %= b", "augment@2:5 a@2:5 %@2:7 b@2:10;"),
    ] {
        let lines = format!(in alloc; "    {text}\n")?;
        let want = format!(in alloc; "f@1:5() None@1:12{{{shape}}} end@3:1")?;
        let Some(out) = body(alloc, &lines) else {
            return Err("no tree".into());
        };
        let out = std::str::from_utf8(&out).map_err(|_| "no text")?;
        assert_eq!(rt; out, want.as_str(), "{lines}");
    }
    Ok(())
}

#[test]
fn statements_with_blocks_have_their_places(rt: HostRuntime) -> Result<(), Fail> {
    let alloc = rt.alloc();
    for (text, shape, end) in [
        (
            "    if a:\n        pass\n",
            "if@2:5 a@2:8{pass@3:9;} else{};",
            4,
        ),
        (
            "    if a: pass\n    elif b: break\n    elif c:\n        continue\n        return\n    else: pass\n",
            "if@2:5 a@2:8{pass@2:11;} elif@3:5 b@3:10{break@3:13;} elif@4:5 c@4:10{continue@5:9;return@6:9;} else{pass@7:11;};",
            8,
        ),
        (
            "    if a: pass\n    else:\n        break\n",
            "if@2:5 a@2:8{pass@2:11;} else{break@4:9;};",
            5,
        ),
        ("    while a: pass\n", "while@2:5 a@2:11{pass@2:14;};", 3),
        (
            "    with a:\n        pass\n",
            "with@2:5 a@2:10{pass@3:9;};",
            4,
        ),
        (
            "    try:\n        pass\n    finally:\n        break\n",
            "try@2:5{pass@3:9;} else{} finally{break@5:9;};",
            6,
        ),
        (
            "    try: pass\n    except A: pass\n",
            "try@2:5{pass@2:10;} except A@3:12{pass@3:15;} else{} finally{};",
            4,
        ),
        (
            "    try: pass\n    except A: break\n    except B:\n        continue\n    else: return\n    finally: a\n",
            "try@2:5{pass@2:10;} except A@3:12{break@3:15;} except B@4:12{continue@5:9;} else{return@6:11;} finally{eval@7:14 a@7:14;};",
            8,
        ),
        (
            "    while a:\n        with b:\n            c\n        d\n    e\n",
            "while@2:5 a@2:11{with@3:9 b@3:14{eval@4:13 c@4:13;};eval@5:9 d@5:9;};eval@6:5 e@6:5;",
            7,
        ),
    ] {
        let lines = format!(in alloc; "{text}")?;
        let want = format!(in alloc; "f@1:5() None@1:12{{{shape}}} end@{end}:1")?;
        let Some(out) = body(alloc, &lines) else {
            return Err("no tree".into());
        };
        let out = std::str::from_utf8(&out).map_err(|_| "no text")?;
        assert_eq!(rt; out, want.as_str(), "{lines}");
    }
    Ok(())
}

#[test]
fn expressions_have_the_places_of_their_marks(rt: HostRuntime) -> Result<(), Fail> {
    let alloc = rt.alloc();
    for (text, shape) in [
        ("1", "1@2:12"),
        ("True", "True@2:12"),
        ("False", "False@2:12"),
        ("None", "None@2:12"),
        ("a", "a@2:12"),
        ("'s'", "'s'@2:12"),
        ("()", "<>@2:12"),
        ("(a)", "{a@2:13}@2:12"),
        ("(a,)", "<a@2:13,>@2:12"),
        ("(a, b)", "<a@2:13,b@2:16,>@2:12"),
        ("(a, b,)", "<a@2:13,b@2:16,>@2:12"),
        ("a.b", "a@2:12.b@2:14"),
        ("a.b.c", "a@2:12.b@2:14.c@2:16"),
        ("f()", "f@2:12()@2:12"),
        ("f(a, b=c,)", "f@2:12(a@2:14,b@2:17=c@2:19,)@2:12"),
        ("a.f(b)", "a@2:12.f@2:14(b@2:16,)@2:14"),
        ("f(a)(b)", "f@2:12(a@2:14,)@2:12(b@2:17,)@2:12"),
        ("-a", "(-@2:12 a@2:13)"),
        ("not a", "(not@2:12 a@2:16)"),
        ("a + b", "(a@2:12 +@2:14 b@2:16)"),
        ("a - b", "(a@2:12 -@2:14 b@2:16)"),
        ("a * b", "(a@2:12 *@2:14 b@2:16)"),
        ("a / b", "(a@2:12 /@2:14 b@2:16)"),
        ("a // b", "(a@2:12 //@2:14 b@2:17)"),
        ("a % b", "(a@2:12 %@2:14 b@2:16)"),
        ("a and b", "(a@2:12 and@2:14 b@2:18)"),
        ("a or b", "(a@2:12 or@2:14 b@2:17)"),
        ("a < b", "[a@2:12 <@2:14 b@2:16]@2:14"),
        ("a <= b", "[a@2:12 <=@2:14 b@2:17]@2:14"),
        ("a > b", "[a@2:12 >@2:14 b@2:16]@2:14"),
        ("a >= b", "[a@2:12 >=@2:14 b@2:17]@2:14"),
        ("a == b", "[a@2:12 ==@2:14 b@2:17]@2:14"),
        ("a != b", "[a@2:12 !=@2:14 b@2:17]@2:14"),
        ("a is b", "[a@2:12 is@2:14 b@2:17]@2:14"),
        ("a is not b", "[a@2:12 is not@2:14 b@2:21]@2:14"),
        (
            "a < b is not c == d",
            "[a@2:12 <@2:14 b@2:16 is not@2:18 c@2:25 ==@2:27 d@2:30]@2:14",
        ),
        ("a - b * c", "(a@2:12 -@2:14 (b@2:16 *@2:18 c@2:20))"),
        (
            "not a < b or c and d",
            "((not@2:12 [a@2:16 <@2:18 b@2:20]@2:18) or@2:22 (c@2:25 and@2:27 d@2:31))",
        ),
    ] {
        let lines = format!(in alloc; "    return {text}\n")?;
        let want = format!(in alloc; "f@1:5() None@1:12{{return@2:5 {shape};}} end@3:1")?;
        let Some(out) = body(alloc, &lines) else {
            return Err("no tree".into());
        };
        let out = std::str::from_utf8(&out).map_err(|_| "no text")?;
        assert_eq!(rt; out, want.as_str(), "{lines}");
    }
    Ok(())
}
