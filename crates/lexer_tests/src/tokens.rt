// The tokens of whole texts, as CPython's tokenizer has them where the two agree, and the first
// faults, worked out by hand.
use py_base::Place;
use py_lexer::lex;
use py_tokens::{LexFault, Token, TokenForm};
use std::alloc::Global;
use std::test::Fail;

fn read(bytes: &[u8]) -> &str {
    match std::str::from_utf8(bytes) {
        Ok(text) => text,
        Err(_) => "not a text",
    }
}

fn form_told(alloc: Global, form: &TokenForm) -> Result<String, Fail> {
    match form {
        TokenForm::Name(name) => {
            let text = read(name.bytes());
            Ok(format!(in alloc; "name {text}")?)
        }
        TokenForm::Str(value) => {
            let text = read(value.bytes());
            Ok(format!(in alloc; "text {text}")?)
        }
        other => Ok(format!(in alloc; "{other:?}")?),
    }
}

fn token_told(alloc: Global, token: &Token) -> Result<String, Fail> {
    let form = form_told(alloc, &token.form)?;
    let Place { line, col } = token.place;
    let end = token.end;
    let end_line = end.line;
    let end_col = end.col;
    Ok(format!(in alloc; "{form} {line}:{col}-{end_line}:{end_col}")?)
}

// The tokens of a text, with `|` behind each.
fn told(alloc: Global, text: &str) -> Result<String, Fail> {
    if text.len() > 1000 {
        return Err(Fail::from("too long"));
    }
    let tokens = lex(alloc, text.as_bytes()).map_err(|_| "no tokens")?;
    let mut all = String::new(alloc);
    for token in &tokens {
        let one = token_told(alloc, token)?;
        all.push_str(one.as_str())?;
        all.push('|')?;
    }
    Ok(all)
}

// The first fault of a text, if it has one. None for texts that are too long here.
fn fault_of(alloc: Global, text: &[u8]) -> Option<LexFault> {
    if text.len() > 1000 {
        return None;
    }
    match lex(alloc, text) {
        Ok(_) => None,
        Err(fault) => Some(fault),
    }
}

fn at(line: u32, col: u32) -> Place {
    Place { line, col }
}

#[test]
fn tokens_are_those_of_cpython(rt: HostRuntime) -> Result<(), Fail> {
    for (text, want) in [
        ("", "End 1:1-1:1|"),
        (
            "x = 7\n",
            "name x 1:1-1:2|Mark(Assign) 1:3-1:4|Number(7) 1:5-1:6|Newline 1:6-1:6|End 2:1-2:1|",
        ),
        (
            "x\ty\n",
            "name x 1:1-1:2|name y 1:3-1:4|Newline 1:4-1:4|End 2:1-2:1|",
        ),
        ("\u{feff}x\n", "name x 1:1-1:2|Newline 1:2-1:2|End 2:1-2:1|"),
        ("a", "name a 1:1-1:2|Newline 1:2-1:2|End 2:1-2:1|"),
        ("# only\n", "End 2:1-2:1|"),
        ("  # only", "End 2:1-2:1|"),
        (
            "f(a,\n  b)\nc\n",
            "name f 1:1-1:2|Mark(OpenParen) 1:2-1:3|name a 1:3-1:4|Mark(Comma) 1:4-1:5|name b 2:3-2:4|Mark(CloseParen) 2:4-2:5|Newline 2:5-2:5|name c 3:1-3:2|Newline 3:2-3:2|End 4:1-4:1|",
        ),
        ("\n  \n\nx\n", "name x 4:1-4:2|Newline 4:2-4:2|End 5:1-5:1|"),
        (
            "if x:\n    y\n    z\nw\n",
            "Key(If) 1:1-1:3|name x 1:4-1:5|Mark(Colon) 1:5-1:6|Newline 1:6-1:6|Indent 2:5-2:5|name y 2:5-2:6|Newline 2:6-2:6|name z 3:5-3:6|Newline 3:6-3:6|Dedent 4:1-4:1|name w 4:1-4:2|Newline 4:2-4:2|End 5:1-5:1|",
        ),
        (
            "if x:\n  if y:\n    z\nw\n",
            "Key(If) 1:1-1:3|name x 1:4-1:5|Mark(Colon) 1:5-1:6|Newline 1:6-1:6|Indent 2:3-2:3|Key(If) 2:3-2:5|name y 2:6-2:7|Mark(Colon) 2:7-2:8|Newline 2:8-2:8|Indent 3:5-3:5|name z 3:5-3:6|Newline 3:6-3:6|Dedent 4:1-4:1|Dedent 4:1-4:1|name w 4:1-4:2|Newline 4:2-4:2|End 5:1-5:1|",
        ),
        (
            "if x:\n  if y:\n    z",
            "Key(If) 1:1-1:3|name x 1:4-1:5|Mark(Colon) 1:5-1:6|Newline 1:6-1:6|Indent 2:3-2:3|Key(If) 2:3-2:5|name y 2:6-2:7|Mark(Colon) 2:7-2:8|Newline 2:8-2:8|Indent 3:5-3:5|name z 3:5-3:6|Newline 3:6-3:6|Dedent 4:1-4:1|Dedent 4:1-4:1|End 4:1-4:1|",
        ),
        (
            "while x:\n  y  # far\n# note\n\n  z\n",
            "Key(While) 1:1-1:6|name x 1:7-1:8|Mark(Colon) 1:8-1:9|Newline 1:9-1:9|Indent 2:3-2:3|name y 2:3-2:4|Newline 2:4-2:4|name z 5:3-5:4|Newline 5:4-5:4|Dedent 6:1-6:1|End 6:1-6:1|",
        ),
        (
            "a = 'b\\n' + \"\"\"c\nd\"\"\"\n",
            "name a 1:1-1:2|Mark(Assign) 1:3-1:4|text b\n 1:5-1:10|Mark(Plus) 1:11-1:12|text c\nd 1:13-2:5|Newline 2:5-2:5|End 3:1-3:1|",
        ),
        (
            "if a:\n  (b\n)\n  c\n",
            "Key(If) 1:1-1:3|name a 1:4-1:5|Mark(Colon) 1:5-1:6|Newline 1:6-1:6|Indent 2:3-2:3|Mark(OpenParen) 2:3-2:4|name b 2:4-2:5|Mark(CloseParen) 3:1-3:2|Newline 3:2-3:2|name c 4:3-4:4|Newline 4:4-4:4|Dedent 5:1-5:1|End 5:1-5:1|",
        ),
        (
            "x == 1_000 // y\n",
            "name x 1:1-1:2|Mark(Equal) 1:3-1:5|Number(1000) 1:6-1:11|Mark(TwoSlashes) 1:12-1:14|name y 1:15-1:16|Newline 1:16-1:16|End 2:1-2:1|",
        ),
        (
            "caf\u{e9} = 1\n",
            "name caf\u{e9} 1:1-1:5|Mark(Assign) 1:6-1:7|Number(1) 1:8-1:9|Newline 1:9-1:9|End 2:1-2:1|",
        ),
        (
            "x = (1 +\n# note\n\n 2)\n",
            "name x 1:1-1:2|Mark(Assign) 1:3-1:4|Mark(OpenParen) 1:5-1:6|Number(1) 1:6-1:7|Mark(Plus) 1:8-1:9|Number(2) 4:2-4:3|Mark(CloseParen) 4:3-4:4|Newline 4:4-4:4|End 5:1-5:1|",
        ),
        (
            "[]\n",
            "Mark(OpenBracket) 1:1-1:2|Mark(CloseBracket) 1:2-1:3|Newline 1:3-1:3|End 2:1-2:1|",
        ),
    ] {
        assert_eq!(rt; told(rt.alloc(), text)?.as_str(), want, "{text}");
    }
    Ok(())
}

#[test]
fn tokens_are_those_of_the_profile(rt: HostRuntime) -> Result<(), Fail> {
    for (text, want) in [
        (
            "a\r\nb\rc",
            "name a 1:1-1:2|Newline 1:2-1:2|name b 2:1-2:2|Newline 2:2-2:2|name c 3:1-3:2|Newline 3:2-3:2|End 4:1-4:1|",
        ),
        (
            "f(\n",
            "name f 1:1-1:2|Mark(OpenParen) 1:2-1:3|End 2:1-2:1|",
        ),
        ("f(", "name f 1:1-1:2|Mark(OpenParen) 1:2-1:3|End 2:1-2:1|"),
        (
            "a)\nb\n",
            "name a 1:1-1:2|Mark(CloseParen) 1:2-1:3|Newline 1:3-1:3|name b 2:1-2:2|Newline 2:2-2:2|End 3:1-3:1|",
        ),
        (
            "\t# note\n\t\nx\n",
            "name x 3:1-3:2|Newline 3:2-3:2|End 4:1-4:1|",
        ),
        (
            "(\n\ta)\n",
            "Mark(OpenParen) 1:1-1:2|name a 2:2-2:3|Mark(CloseParen) 2:3-2:4|Newline 2:4-2:4|End 3:1-3:1|",
        ),
        (
            "'''a\r\nb\rc'''",
            "text a\nb\nc 1:1-3:5|Newline 3:5-3:5|End 4:1-4:1|",
        ),
        (
            "170141183460469231731687303715884105727\n",
            "Number(170141183460469231731687303715884105727) 1:1-1:40|Newline 1:40-1:40|End 2:1-2:1|",
        ),
    ] {
        assert_eq!(rt; told(rt.alloc(), text)?.as_str(), want, "{text}");
    }
    Ok(())
}

#[test]
fn first_faults_stand_where_a_reader_expects(rt: HostRuntime) {
    for (text, want) in [
        ("if a:\n    x = 007\n", LexFault::BadCharacter(at(2, 10))),
        ("a ? b", LexFault::BadCharacter(at(1, 3))),
        ("a ! b", LexFault::BadCharacter(at(1, 3))),
        ("1a", LexFault::BadCharacter(at(1, 2))),
        ("1_", LexFault::BadCharacter(at(1, 2))),
        ("'a\\q'", LexFault::BadCharacter(at(1, 3))),
        ("if a:\n\tb\n", LexFault::TabInIndent(at(2, 1))),
        ("if a:\n  \t b\n", LexFault::TabInIndent(at(2, 3))),
        ("\t'a", LexFault::TabInIndent(at(1, 1))),
        ("\t ?", LexFault::BadCharacter(at(1, 3))),
        ("if a:\n    b\n  c\n", LexFault::BadDedent(at(3, 3))),
        ("if a:\n    b\n  'c", LexFault::BadDedent(at(3, 3))),
        ("if a:\n    b\n  ?", LexFault::BadCharacter(at(3, 3))),
        ("a = 'b\nc", LexFault::OpenString(at(1, 5))),
        ("'''a\n''", LexFault::OpenString(at(1, 1))),
        ("a ?\n'b", LexFault::BadCharacter(at(1, 3))),
        (
            "170141183460469231731687303715884105728\n",
            LexFault::LiteralTooLarge(at(1, 1)),
        ),
        ("x = \u{2126}\n", LexFault::NameNotNfkc(at(1, 5))),
        ("\u{fb01}x ?", LexFault::NameNotNfkc(at(1, 1))),
    ] {
        let found = fault_of(rt.alloc(), text.as_bytes());
        assert_eq!(rt; found, Some(want), "{text}");
    }
}

#[test]
fn bytes_that_are_no_text_come_first(rt: HostRuntime) {
    for (text, want) in [
        (b"a\xc0\xaf".as_slice(), at(1, 2)),
        (b"\xe2\x82".as_slice(), at(1, 1)),
        (b"ab\n\xed\xa0\x80".as_slice(), at(2, 1)),
        (b"? 1a\xff".as_slice(), at(1, 5)),
    ] {
        let found = fault_of(rt.alloc(), text);
        assert_eq!(rt; found, Some(LexFault::BadUtf8(want)));
    }
}

// So many letters `a`, and then these.
fn long_name(alloc: Global, count: u32, behind: &str) -> Result<String, Fail> {
    let mut text = String::new(alloc);
    for _ in 0..count {
        text.push('a')?;
    }
    text.push_str(behind)?;
    Ok(text)
}

#[test]
fn names_have_255_bytes_at_most(rt: HostRuntime) -> Result<(), Fail> {
    let alloc = rt.alloc();
    for (count, behind, want) in [
        (255, "", None),
        (256, "", Some(LexFault::NameTooLong(at(1, 1)))),
        (253, "\u{e9}", None),
        (254, "\u{e9}", Some(LexFault::NameTooLong(at(1, 1)))),
        (256, "\u{fb01}", Some(LexFault::NameTooLong(at(1, 1)))),
        (100, "\u{fb01}", Some(LexFault::NameNotNfkc(at(1, 1)))),
    ] {
        let text = long_name(alloc, count, behind)?;
        let found = fault_of(alloc, text.as_bytes());
        assert_eq!(rt; found, want, "{count} {behind}");
    }
    Ok(())
}
