// What no clause says: that calls succeed, and that the places and pieces are those that a reader
// expects.
use py_base::Place;
use py_lexer::{CutText, characters, text_pieces};
use py_tokens::{LexFault, Piece, Shape, TokenForm};
use std::alloc::Global;
use std::test::Fail;

// The place just after the last character, or the fault; None for texts that are too long here.
fn end_of(alloc: Global, text: &[u8]) -> Option<Result<Place, LexFault>> {
    if text.len() > 1000 {
        return None;
    }
    Some(characters(alloc, text).map(|found| found.end))
}

fn at(line: u32, col: u32) -> Place {
    Place { line, col }
}

#[test]
fn characters_end_where_a_reader_expects(rt: HostRuntime) {
    for (text, want) in [
        ("", at(1, 1)),
        ("a", at(1, 2)),
        ("\u{e9}b", at(1, 3)),
        ("a\n", at(2, 1)),
        ("a\r\nb", at(2, 2)),
        ("a\rb", at(2, 2)),
        ("\r\r\n\n", at(4, 1)),
        ("\u{feff}a", at(1, 2)),
        ("\u{feff}\u{feff}", at(1, 2)),
    ] {
        assert_eq!(rt; end_of(rt.alloc(), text.as_bytes()), Some(Ok(want)));
    }
}

#[test]
fn bad_bytes_have_a_place(rt: HostRuntime) {
    for (text, want) in [
        (b"\xff".as_slice(), at(1, 1)),
        (b"a\r\n\xc3\xa9\xc3".as_slice(), at(2, 2)),
        (b"\xef\xbb\xbfa\x80".as_slice(), at(1, 2)),
    ] {
        assert_eq!(rt;
            end_of(rt.alloc(), text),
            Some(Err(LexFault::BadUtf8(want)))
        );
    }
}

fn read(bytes: &[u8]) -> &str {
    match std::str::from_utf8(bytes) {
        Ok(text) => text,
        Err(_) => "not a text",
    }
}

fn shape_told(alloc: Global, shape: &Shape) -> Result<String, Fail> {
    match shape {
        Shape::Whole(TokenForm::Name(name)) => {
            let text = read(name.bytes());
            Ok(format!(in alloc; "name {text}")?)
        }
        Shape::Whole(TokenForm::Str(value)) => {
            let text = read(value.bytes());
            Ok(format!(in alloc; "string {text}")?)
        }
        Shape::Whole(form) => Ok(format!(in alloc; "{form:?}")?),
        other => Ok(format!(in alloc; "{other:?}")?),
    }
}

fn extent_told(alloc: Global, piece: &Piece) -> Result<String, Fail> {
    let Place { line, col } = piece.place;
    let end = piece.end;
    let end_line = end.line;
    let end_col = end.col;
    Ok(format!(in alloc; "{line}:{col}-{end_line}:{end_col}")?)
}

fn pieces_in(alloc: Global, text: &[u8]) -> Result<CutText, Fail> {
    if text.len() > 1000 {
        return Err(Fail::from("too long"));
    }
    Ok(text_pieces(alloc, text).map_err(|_| "no pieces")?)
}

// The pieces of a text, with `|` behind each.
fn told(alloc: Global, text: &str) -> Result<String, Fail> {
    let found = pieces_in(alloc, text.as_bytes())?;
    let mut all = String::new(alloc);
    for piece in &found.pieces {
        let one = shape_told(alloc, &piece.shape)?;
        all.push_str(one.as_str())?;
        all.push('|')?;
    }
    Ok(all)
}

#[test]
fn numbers_end_where_a_reader_expects(rt: HostRuntime) -> Result<(), Fail> {
    for (text, want) in [
        ("0", "Number(0)|"),
        ("907", "Number(907)|"),
        ("007", "Number(0)|Number(0)|Number(7)|"),
        ("1_000", "Number(1000)|"),
        ("1__0", "Number(1)|name __0|"),
        ("1_", "Number(1)|name _|"),
        ("0_0", "Number(0)|name _0|"),
        ("0x1", "Number(0)|name x1|"),
        ("1a", "Number(1)|name a|"),
        ("1.5", "Number(1)|Mark(Dot)|Number(5)|"),
        (
            "170141183460469231731687303715884105727",
            "Number(170141183460469231731687303715884105727)|",
        ),
        ("170141183460469231731687303715884105728", "LargeNumber|"),
        (
            "9_99999999999999999999999999999999999999999",
            "LargeNumber|",
        ),
    ] {
        assert_eq!(rt; told(rt.alloc(), text)?.as_str(), want, "{text}");
    }
    Ok(())
}

#[test]
fn strings_stand_for_what_a_reader_expects(rt: HostRuntime) -> Result<(), Fail> {
    for (text, want) in [
        ("'a'", "string a|"),
        ("\"\"", "string |"),
        ("''", "string |"),
        ("\"it's\"", "string it's|"),
        ("'\\\\\\'\\\"\\n\\t'", "string \\'\"\n\t|"),
        ("'\u{e9}'", "string \u{e9}|"),
        ("'''a''b'''", "string a''b|"),
        ("\"\"\"a\r\nb\"\"\"", "string a\nb|"),
        ("'''a''''", "string a|Unclosed|"),
        ("'a'b", "string a|name b|"),
    ] {
        assert_eq!(rt; told(rt.alloc(), text)?.as_str(), want, "{text}");
    }
    Ok(())
}

#[test]
fn faulty_strings_are_told_apart(rt: HostRuntime) -> Result<(), Fail> {
    for (text, want) in [
        ("'a", "Unclosed|"),
        ("'a\nb'", "Unclosed|"),
        ("'\\\nb'", "Unclosed|"),
        ("'\\", "Unclosed|"),
        ("'''a''", "Unclosed|"),
        ("'\\q", "Unclosed|"),
        ("'a\\qb'", "BadEscape(Place { line: 1, col: 3 })|"),
        ("'\\q\\z'x", "BadEscape(Place { line: 1, col: 2 })|name x|"),
        ("'''a\n\\0'''", "BadEscape(Place { line: 2, col: 1 })|"),
        ("'''\\\n'''", "BadEscape(Place { line: 1, col: 4 })|"),
    ] {
        assert_eq!(rt; told(rt.alloc(), text)?.as_str(), want, "{text}");
    }
    Ok(())
}

#[test]
fn marks_are_the_longest_that_fit(rt: HostRuntime) -> Result<(), Fail> {
    for (text, want) in [
        ("(]", "Mark(OpenParen)|Mark(CloseBracket)|"),
        ("[)", "Mark(OpenBracket)|Mark(CloseParen)|"),
        (":,.@", "Mark(Colon)|Mark(Comma)|Mark(Dot)|Mark(At)|"),
        ("+-*/", "Mark(Plus)|Mark(Minus)|Mark(Star)|Mark(Slash)|"),
        ("%<", "Mark(Percent)|Mark(Less)|"),
        ("<=", "Mark(LessEqual)|"),
        (">=>", "Mark(GreaterEqual)|Mark(Greater)|"),
        ("===", "Mark(Equal)|Mark(Assign)|"),
        ("!=", "Mark(NotEqual)|"),
        ("->", "Mark(Arrow)|"),
        ("+=-=", "Mark(PlusAssign)|Mark(MinusAssign)|"),
        ("*=%=", "Mark(StarAssign)|Mark(PercentAssign)|"),
        ("//=", "Mark(TwoSlashesAssign)|"),
        ("///=", "Mark(TwoSlashes)|Mark(Slash)|Mark(Assign)|"),
        ("!", "Stray|"),
        ("~&", "Stray|Stray|"),
    ] {
        assert_eq!(rt; told(rt.alloc(), text)?.as_str(), want, "{text}");
    }
    Ok(())
}

#[test]
fn names_are_of_any_script(rt: HostRuntime) -> Result<(), Fail> {
    for (text, want) in [
        ("_", "name _|"),
        ("a1_b", "name a1_b|"),
        ("\u{e9}lan", "name \u{e9}lan|"),
        ("e\u{301}", "name e\u{301}|"),
        ("\u{540d}\u{524d}", "name \u{540d}\u{524d}|"),
        ("\u{3b1}\u{b7}", "name \u{3b1}\u{b7}|"),
        ("\u{301}x", "Stray|name x|"),
        ("$a", "Stray|name a|"),
        ("define", "name define|"),
        ("none", "name none|"),
    ] {
        assert_eq!(rt; told(rt.alloc(), text)?.as_str(), want, "{text}");
    }
    Ok(())
}

#[test]
fn keywords_are_no_names(rt: HostRuntime) -> Result<(), Fail> {
    for (text, want) in [
        ("False", "Key(False)|"),
        ("None", "Key(None)|"),
        ("True", "Key(True)|"),
        ("and", "Key(And)|"),
        ("as", "Key(As)|"),
        ("assert", "Key(Assert)|"),
        ("async", "Key(Async)|"),
        ("await", "Key(Await)|"),
        ("break", "Key(Break)|"),
        ("class", "Key(Class)|"),
        ("continue", "Key(Continue)|"),
        ("def", "Key(Def)|"),
        ("del", "Key(Del)|"),
        ("elif", "Key(Elif)|"),
        ("else", "Key(Else)|"),
        ("except", "Key(Except)|"),
        ("finally", "Key(Finally)|"),
        ("for", "Key(For)|"),
        ("from", "Key(From)|"),
        ("global", "Key(Global)|"),
        ("if", "Key(If)|"),
        ("import", "Key(Import)|"),
        ("in", "Key(In)|"),
        ("is", "Key(Is)|"),
        ("lambda", "Key(Lambda)|"),
        ("nonlocal", "Key(Nonlocal)|"),
        ("not", "Key(Not)|"),
        ("or", "Key(Or)|"),
        ("pass", "Key(Pass)|"),
        ("raise", "Key(Raise)|"),
        ("return", "Key(Return)|"),
        ("try", "Key(Try)|"),
        ("while", "Key(While)|"),
        ("with", "Key(With)|"),
        ("yield", "Key(Yield)|"),
    ] {
        assert_eq!(rt; told(rt.alloc(), text)?.as_str(), want, "{text}");
    }
    Ok(())
}

#[test]
fn pieces_between_tokens_are_told_apart(rt: HostRuntime) -> Result<(), Fail> {
    for (text, want) in [
        ("", ""),
        (" \t\n", "Space|Tab|LineEnd|"),
        ("# a", "Comment|"),
        ("#\r\nx", "Comment|LineEnd|name x|"),
        ("a # b # c\r", "name a|Space|Comment|LineEnd|"),
        ("'#'", "string #|"),
        ("\u{c}", "Stray|"),
    ] {
        assert_eq!(rt; told(rt.alloc(), text)?.as_str(), want, "{text}");
    }
    Ok(())
}

#[test]
fn pieces_have_their_extents(rt: HostRuntime) -> Result<(), Fail> {
    let alloc = rt.alloc();
    let found = pieces_in(alloc, "\u{feff}if \u{e9}:\r\n'''\n'''x".as_bytes())?;
    let mut all = String::new(alloc);
    for piece in &found.pieces {
        let one = extent_told(alloc, piece)?;
        all.push_str(one.as_str())?;
        all.push(' ')?;
    }
    assert_eq!(rt;
        all.as_str(),
        "1:1-1:3 1:3-1:4 1:4-1:5 1:5-1:6 1:6-2:1 2:1-3:4 3:4-3:5 "
    );
    assert_eq!(rt; found.end, at(3, 5));
    Ok(())
}
