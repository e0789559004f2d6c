// The trees of expressions, from the tokens of their texts.
use expr_parser::expr::expression;
use expr_parser::fault::Refused;
use py_base::Place;
use py_lexer::lex;
use py_parser::key::operator_key;
use py_tokens::Mark;
use raw_syntax::{Arithmetic, RawExpr, RawExprForm};
use std::alloc::{AllocError, Global};
use std::test::Fail;

fn sign_of(sign: &Arithmetic) -> &'static [u8] {
    match sign {
        Arithmetic::Plus => b"+",
        Arithmetic::Minus => b"-",
        Arithmetic::Times => b"*",
        Arithmetic::Divide => b"/",
        Arithmetic::FloorDivide => b"//",
        Arithmetic::Modulo => b"%",
    }
}

fn put(out: &mut Vec<u8>, piece: &[u8]) -> Result<(), AllocError> {
    out.extend_from_slice(piece)
}

fn put_count(out: &mut Vec<u8>, count: usize) -> Result<(), AllocError> {
    let digit = if count < 10 { b'0' + count as u8 } else { b'?' };
    out.push(digit)?;
    Ok(())
}

/// Writes an expression with all its groups: `(a-b)`, `(not a)`, `[a2]` for a chain of two comparisons
/// that begins with `a`, `f(2)` for a call with two arguments, `<2>` for a tuple, `{a}` for brackets.
fn write(e: &RawExpr, out: &mut Vec<u8>) -> Result<(), AllocError> {
    match &e.form {
        RawExprForm::Name(name) => put(out, name.bytes()),
        RawExprForm::Bracket(a) => {
            put(out, b"{")?;
            write(a.get(), out)?;
            put(out, b"}")
        }
        RawExprForm::Tuple(list) => {
            put(out, b"<")?;
            put_count(out, list.len())?;
            put(out, b">")
        }
        RawExprForm::Field(a, name) => {
            write(a.get(), out)?;
            put(out, b".")?;
            put(out, name.bytes())
        }
        RawExprForm::Call(a, list) => {
            write(a.get(), out)?;
            put(out, b"(")?;
            put_count(out, list.len())?;
            put(out, b")")
        }
        RawExprForm::Negate(a) => {
            put(out, b"(-")?;
            write(a.get(), out)?;
            put(out, b")")
        }
        RawExprForm::Not(a) => {
            put(out, b"(not ")?;
            write(a.get(), out)?;
            put(out, b")")
        }
        RawExprForm::Binary(sign, a, b) => {
            put(out, b"(")?;
            write(a.get(), out)?;
            put(out, sign_of(sign))?;
            write(b.get(), out)?;
            put(out, b")")
        }
        RawExprForm::And(a, b) => {
            put(out, b"(")?;
            write(a.get(), out)?;
            put(out, b" and ")?;
            write(b.get(), out)?;
            put(out, b")")
        }
        RawExprForm::Or(a, b) => {
            put(out, b"(")?;
            write(a.get(), out)?;
            put(out, b" or ")?;
            write(b.get(), out)?;
            put(out, b")")
        }
        RawExprForm::Chain(a, list) => {
            put(out, b"[")?;
            write(a.get(), out)?;
            put_count(out, list.len())?;
            put(out, b"]")
        }
        _ => put(out, b"_"),
    }
}

/// What a text of at most a hundred bytes is as an expression, and how many tokens stand behind it;
/// None where there was no memory or the text has no tokens.
fn read(alloc: Global, text: &str) -> Option<Result<(Vec<u8>, usize), Refused>> {
    if text.len() > 100 {
        return None;
    }
    let tokens = lex(alloc, text.as_bytes()).ok()?;
    match expression(alloc, &tokens) {
        Ok((e, rest)) => {
            let mut out = Vec::new(alloc);
            write(&e, &mut out).ok()?;
            Some(Ok((out, rest.len())))
        }
        Err(refused) => Some(Err(refused)),
    }
}

// A line's tokens end with NEWLINE and END.
#[test]
fn expressions_group_as_their_operators_bind(rt: HostRuntime) -> Result<(), Fail> {
    for (text, shape, behind) in [
        ("a - b - c", "((a-b)-c)", 2),
        ("a - b * c", "(a-(b*c))", 2),
        ("a // b % c", "((a//b)%c)", 2),
        ("-a * b", "((-a)*b)", 2),
        ("- - a", "(-(-a))", 2),
        ("not a is not b", "(not [a1])", 2),
        ("not a == b", "(not [a1])", 2),
        ("a < b + c <= d", "[a2]", 2),
        ("a or b and not c", "(a or (b and (not c)))", 2),
        ("a and b or c", "((a and b) or c)", 2),
        ("a and b and c", "((a and b) and c)", 2),
        ("f(x, y).g", "f(2).g", 2),
        ("f(x=y,)", "f(1)", 2),
        ("f()", "f(0)", 2),
        ("-(a)", "(-{a})", 2),
        ("(a, b,)", "<2>", 2),
        ("()", "<0>", 2),
        ("(a,)", "<1>", 2),
        ("a = b", "a", 4),
        ("a b", "a", 3),
    ] {
        match read(rt.alloc(), text) {
            Some(Ok((out, rest))) => {
                assert_eq!(rt; out.as_slice(), shape.as_bytes(), "{text}");
                assert_eq!(rt; rest, behind, "{text}");
            }
            _ => return Err("no expression".into()),
        }
    }
    Ok(())
}

#[test]
fn a_refusal_stands_at_the_first_token_that_goes_on_with_nothing(
    rt: HostRuntime,
) -> Result<(), Fail> {
    for (text, col) in [
        ("a +", 4),
        ("f(,)", 3),
        ("(a b)", 4),
        ("f(x y)", 5),
        ("a.1", 3),
        ("not", 4),
        ("a < < b", 5),
        ("+a", 1),
        ("(,)", 2),
    ] {
        match read(rt.alloc(), text) {
            Some(Err(refused)) => {
                assert_eq!(rt; refused, Refused::Syntax(Place { line: 1, col }), "{text}");
            }
            _ => return Err("no refusal".into()),
        }
    }
    Ok(())
}

// The keys of the operators: `+ - * // %` are 1 to 5, `< <= > >=` are 7 to 10, and `==` and `!=` are 11 and 12.
#[test]
fn marks_have_the_keys_of_their_operators(rt: HostRuntime) -> Result<(), Fail> {
    for (mark, key) in [
        (Mark::Plus, Some(1)),
        (Mark::Minus, Some(2)),
        (Mark::Star, Some(3)),
        (Mark::TwoSlashes, Some(4)),
        (Mark::Percent, Some(5)),
        (Mark::Less, Some(7)),
        (Mark::LessEqual, Some(8)),
        (Mark::Greater, Some(9)),
        (Mark::GreaterEqual, Some(10)),
        (Mark::Equal, Some(11)),
        (Mark::NotEqual, Some(12)),
        (Mark::PlusAssign, Some(1)),
        (Mark::PercentAssign, Some(5)),
        (Mark::Slash, None),
        (Mark::Assign, None),
        (Mark::Arrow, None),
        (Mark::CloseBracket, None),
    ] {
        assert_eq!(rt; operator_key(mark), key, "{mark:?}");
    }
    Ok(())
}
