// The limits: how deep tokens are nested, how long lines are, and how many statements and functions a module has.
use crate::readings::{parsed, syntax, tokens_of, too_deep};
use py_parser::fault::ParseFault;
use std::alloc::{AllocError, Global};
use std::test::Fail;

/// The head of a function with one statement, whose value begins in column 9 of line 2. Its body is one indent deep.
const VALUE: &str = "def f() -> None:\n    x = ";

/// The head of a function whose body is one expression, from column 25 of line 1 on. It opens no indent.
const RESULT: &str = "def f() -> None: return ";

/// The head of a function whose lines begin with one blank.
const BODY: &str = "def f() -> None:\n";

/// The head of a loop whose lines begin with two blanks.
const LOOP: &str = "def f() -> None:\n while a:\n";

/// A function of 20 statements.
const TWENTY: &str =
    "def f() -> None:\n pass\n pass\n pass\n pass\n pass\n pass\n pass\n pass\n pass\n pass\n pass\n pass\n pass\n pass\n pass\n pass\n pass\n pass\n pass\n pass\n";

/// The fault of a text, or None within for a tree; None where the text has no tokens.
fn fault_of(alloc: Global, text: &[u8]) -> Option<Option<ParseFault>> {
    let tokens = tokens_of(alloc, text)?;
    Some(parsed(alloc, &tokens)?.err())
}

fn put_times(out: &mut Vec<u8>, piece: &str, count: usize) -> Result<(), AllocError> {
    for _ in 0..count {
        out.extend_from_slice(piece.as_bytes())?;
    }
    Ok(())
}

/// A head, so many opening pieces, what stands within, and as many closing pieces.
fn nested(
    alloc: Global,
    (head, open, within, close): (&str, &str, &str, &str),
    count: usize,
) -> Result<Vec<u8>, AllocError> {
    let mut out = Vec::new(alloc);
    out.extend_from_slice(head.as_bytes())?;
    put_times(&mut out, open, count)?;
    out.extend_from_slice(within.as_bytes())?;
    put_times(&mut out, close, count)?;
    out.push(b'\n')?;
    Ok(out)
}

// The nesting at a token: the indents and opening marks up to and with it, less those that are closed, and the unbroken
// run of `not` and prefix `-` just before it.
#[test]
fn a_token_is_nested_100_deep_at_most(rt: HostRuntime) -> Result<(), Fail> {
    let alloc = rt.alloc();
    for (shape, count, fault) in [
        ((VALUE, "(", "1", ")"), 99, None),
        ((VALUE, "(", "1", ")"), 100, Some(too_deep(2, 108))),
        ((VALUE, "f(", "", ")"), 99, None),
        ((VALUE, "f(", "", ")"), 100, Some(too_deep(2, 208))),
        ((VALUE, "not ", "a", ""), 99, None),
        ((VALUE, "not ", "a", ""), 100, Some(too_deep(2, 409))),
        ((VALUE, "-", "a", ""), 99, None),
        ((VALUE, "-", "a", ""), 100, Some(too_deep(2, 109))),
        ((VALUE, "(not ", "a", ")"), 98, None),
        ((VALUE, "(not ", "a", ")"), 99, Some(too_deep(2, 499))),
        ((RESULT, "(", "1", ")"), 100, None),
        ((RESULT, "(", "1", ")"), 101, Some(too_deep(1, 125))),
        ((RESULT, "not ", "a", ""), 100, None),
        ((RESULT, "not ", "a", ""), 101, Some(too_deep(1, 429))),
        ((RESULT, "a is not ", "b", ""), 200, None),
        ((RESULT, "(1) + ", "1", ""), 200, None),
        ((RESULT, "not a or ", "b", ""), 200, None),
        ((RESULT, "-a - ", "-b", ""), 200, None),
    ] {
        let text = nested(alloc, shape, count)?;
        assert_eq!(rt; fault_of(alloc, &text), Some(fault), "{count} {}", shape.1);
    }
    Ok(())
}

#[test]
fn syntax_and_depth_go_by_place(rt: HostRuntime) -> Result<(), Fail> {
    let alloc = rt.alloc();
    for (shape, count, fault) in [
        ((") ", "(", "1", ")"), 101, syntax(1, 1)),
        ((VALUE, "(", "1 1", ")"), 99, syntax(2, 110)),
        ((VALUE, "(", "1 1", ")"), 100, too_deep(2, 108)),
        ((VALUE, "(", "[", ""), 98, syntax(2, 107)),
        ((VALUE, "(", "[", ""), 99, too_deep(2, 108)),
        ((VALUE, "not ", "=", ""), 99, syntax(2, 405)),
        ((VALUE, "not ", "=", ""), 100, too_deep(2, 409)),
    ] {
        let text = nested(alloc, shape, count)?;
        assert_eq!(rt;
            fault_of(alloc, &text),
            Some(Some(fault)),
            "{count} {}",
            shape.2
        );
    }
    Ok(())
}

/// A function with so many loops within one another, each one blank deeper, and `pass` within the last.
fn blocks(alloc: Global, count: usize) -> Result<Vec<u8>, AllocError> {
    let mut out = Vec::new(alloc);
    out.extend_from_slice(BODY.as_bytes())?;
    for depth in 0..count {
        put_times(&mut out, " ", depth)?;
        out.extend_from_slice(b" while a:\n")?;
    }
    put_times(&mut out, " ", count)?;
    out.extend_from_slice(b" pass\n")?;
    Ok(out)
}

// The function's body is one indent, and each loop opens one. The line of `pass` is the last.
#[test]
fn a_block_is_100_deep_at_most(rt: HostRuntime) -> Result<(), Fail> {
    let alloc = rt.alloc();
    for (count, fault) in [
        (1, None),
        (98, None),
        (99, None),
        (100, Some(too_deep(102, 102))),
        (101, Some(too_deep(102, 102))),
    ] {
        let text = blocks(alloc, count)?;
        assert_eq!(rt; fault_of(alloc, &text), Some(fault), "{count}");
    }
    Ok(())
}

// A line's NEWLINE is counted, and its INDENT isn't. What is too long comes before all other faults.
#[test]
fn a_line_has_2000_tokens_at_most(rt: HostRuntime) -> Result<(), Fail> {
    let alloc = rt.alloc();
    for (shape, count, fault) in [
        (("def f() -> None:\n    x = 1", " + 1", "", ""), 998, None),
        (
            ("def f() -> None:\n    x = -1", " + 1", "", ""),
            998,
            Some(ParseFault::LineTooLong),
        ),
        (
            ("def f() -> None:\n    x = (1", " +\n1", ")", ""),
            997,
            None,
        ),
        (
            ("def f() -> None:\n    x = (-1", " +\n1", ")", ""),
            997,
            Some(ParseFault::LineTooLong),
        ),
        (
            (")\ndef f() -> None:\n    x = -1", " + 1", "", ""),
            998,
            Some(ParseFault::LineTooLong),
        ),
        (
            ("def f() -> None:\n    x = ", "(", "1", ")"),
            1000,
            Some(ParseFault::LineTooLong),
        ),
        (
            ("def f() -> None:\n    x = ", "(", "1", ")"),
            998,
            Some(too_deep(2, 108)),
        ),
    ] {
        let text = nested(alloc, shape, count)?;
        assert_eq!(rt; fault_of(alloc, &text), Some(fault), "{count} {}", shape.1);
    }
    Ok(())
}

#[test]
fn a_module_has_20000_statements_at_most(rt: HostRuntime) -> Result<(), Fail> {
    let alloc = rt.alloc();
    for (shape, count, fault) in [
        ((BODY, " pass\n", "", ""), 20_000, None),
        (
            (BODY, " pass\n", "", ""),
            20_001,
            Some(ParseFault::TooManyStatements),
        ),
    ] {
        let text = nested(alloc, shape, count)?;
        assert_eq!(rt; fault_of(alloc, &text), Some(fault), "{count}");
    }
    Ok(())
}

#[test]
fn statements_within_others_are_counted(rt: HostRuntime) -> Result<(), Fail> {
    let alloc = rt.alloc();
    for (shape, count, fault) in [
        ((LOOP, "  pass\n", "", ""), 19_999, None),
        (
            (LOOP, "  pass\n", "", ""),
            20_000,
            Some(ParseFault::TooManyStatements),
        ),
    ] {
        let text = nested(alloc, shape, count)?;
        assert_eq!(rt; fault_of(alloc, &text), Some(fault), "{count}");
    }
    Ok(())
}

// Syntax comes before the count of statements, and that before the count of functions.
#[test]
fn statements_come_behind_syntax_and_before_functions(rt: HostRuntime) -> Result<(), Fail> {
    let alloc = rt.alloc();
    for (shape, count, fault) in [
        ((BODY, " pass\n", ")", ""), 20_001, syntax(20_003, 1)),
        (("", TWENTY, "", ""), 1_001, ParseFault::TooManyStatements),
    ] {
        let text = nested(alloc, shape, count)?;
        assert_eq!(rt; fault_of(alloc, &text), Some(Some(fault)), "{count}");
    }
    Ok(())
}

#[test]
fn a_module_has_1000_functions_at_most(rt: HostRuntime) -> Result<(), Fail> {
    let alloc = rt.alloc();
    for (shape, count, fault) in [
        (("", "def f() -> None: pass\n", "", ""), 1_000, None),
        (
            ("", "def f() -> None: pass\n", "", ""),
            1_001,
            Some(ParseFault::TooManyMethods),
        ),
        (
            ("class A:\n", " def f() -> None: pass\n", "", ""),
            1_000,
            None,
        ),
        (
            ("class A:\n", " def f() -> None: pass\n", "", ""),
            1_001,
            Some(ParseFault::TooManyMethods),
        ),
        (
            (
                "def g() -> None: pass\nclass A:\n",
                " def f() -> None: pass\n",
                "",
                "",
            ),
            1_000,
            Some(ParseFault::TooManyMethods),
        ),
    ] {
        let text = nested(alloc, shape, count)?;
        assert_eq!(rt; fault_of(alloc, &text), Some(fault), "{count}");
    }
    Ok(())
}
