// What texts are as modules.
use crate::trees::{Writer, write_module};
use py_base::Place;
use py_lexer::lex;
use py_parser::fault::ParseFault;
use py_parser::parse::parse;
use py_tokens::{Token, TokenForm};
use raw_syntax::Raw;
use std::alloc::Global;

/// The answer for tokens that end with the end of a text; None for others.
pub fn parsed(alloc: Global, tokens: &[Token]) -> Option<Result<Raw, ParseFault>> {
    let (last, _) = tokens.split_last()?;
    match &last.form {
        TokenForm::End => Some(parse(alloc, tokens)),
        _ => None,
    }
}

/// The tokens of a text of at most a million bytes; None where it has none.
pub fn tokens_of(alloc: Global, text: &[u8]) -> Option<Vec<Token>> {
    if text.len() > 1_000_000 {
        return None;
    }
    lex(alloc, text).ok()
}

/// The tree of a text, or why it has none; None where it has no tokens.
pub fn read(alloc: Global, text: &[u8]) -> Option<Result<Raw, ParseFault>> {
    let tokens = tokens_of(alloc, text)?;
    parsed(alloc, &tokens)
}

/// The tree of a text, written out; None where it has none.
pub fn shown(alloc: Global, text: &[u8]) -> Option<Vec<u8>> {
    let tree = read(alloc, text)?.ok()?;
    let mut out = Writer::new(alloc);
    write_module(&tree, &mut out);
    out.into_bytes()
}

/// Why a text has no tree; None where it has one.
pub fn refused(alloc: Global, text: &[u8]) -> Option<ParseFault> {
    read(alloc, text)?.err()
}

/// A fault of syntax at this line and column.
pub fn syntax(line: u32, col: u32) -> ParseFault {
    ParseFault::Syntax(Place { line, col })
}

/// A token that is nested too deep, at this line and column.
pub fn too_deep(line: u32, col: u32) -> ParseFault {
    ParseFault::TooDeep(Place { line, col })
}
