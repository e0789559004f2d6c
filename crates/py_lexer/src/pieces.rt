// The piece in front.
ghost use Rattle.std.specs.Prelude.{◌≡◌, ◌≤◌, ◌<◌, ◌+◌, ◌^◌, IfOk, length, encode_utf8_all, string_bytes, MatchOption};
ghost use Rattle.py_tokens.specs.TextPieces.{Longest, IsWord, IsNumber};
ghost use Rattle.py_lexer.specs.PieceForms.{IsWordShape, IsNumberShape, StandsAlone, StandsAt};

use crate::comments::split_comment;
use crate::marks::split_mark;
use crate::numbers::{split_number, value_of};
use crate::string_pieces::split_string;
use crate::words::{keyword_of, split_word};
use py_base::{Place, Text};
use py_tokens::{Shape, TokenForm};
use std::alloc::{AllocError, Global};

/// The shape of the piece in front, and how many characters it has.
pub fn next_shape(alloc: Global, place: Place, codes: &[char]) -> Result<(Shape, usize), AllocError>
    requires some { 0 < length codes.now }
    requires line { place.line + length codes.now < 2 ^ 32 }
    requires col { place.col + length codes.now < 2 ^ 32 }
    ensures { IfOk result (λ found. StandsAt place codes.now found.1 found.0) }
{
    if let Some((word, _)) = split_word(codes) {
        return Ok((word_shape(alloc, word)?, word.len()));
    }
    if let Some((number, _)) = split_number(codes) {
        return Ok((number_shape(number), number.len()));
    }
    if let Some((mark, text, _)) = split_mark(codes) {
        return Ok((Shape::Whole(TokenForm::Mark(mark)), text.len()));
    }
    if let Some((comment, _)) = split_comment(codes) {
        return Ok((Shape::Comment, comment.len()));
    }
    match split_string(alloc, place, codes)? {
        Some(found) => Ok(found),
        None => Ok((single_shape(codes[0]), 1)),
    }
}

fn word_shape(alloc: Global, word: &[char]) -> Result<Shape, AllocError>
    ensures { IfOk result (λ shape. IsWordShape word.now shape) }
{
    match keyword_of(word) {
        Some(keyword) => Ok(Shape::Whole(TokenForm::Key(keyword))),
        None => {
            let name = Text::of(encoded(alloc, word)?);
            Ok(Shape::Whole(TokenForm::Name(name)))
        }
    }
}

// The characters as bytes in UTF-8.
fn encoded(alloc: Global, codes: &[char]) -> Result<Vec<u8>, AllocError>
    ensures { IfOk result (λ bytes. bytes.items ≡ encode_utf8_all codes.now) }
{
    let mut text = String::new(alloc);
    let mut rest = codes;
    'codes: while let [c, more @ ..] = rest {
        rest = more;
        text.push(*c)?;
    }
    Ok(text.into_bytes())
}

fn number_shape(number: &[char]) -> Shape
    ensures { IsNumberShape number.now result }
{
    match value_of(number) {
        Some(value) => Shape::Whole(TokenForm::Number(value)),
        None => Shape::LargeNumber,
    }
}

fn single_shape(c: char) -> Shape
    ensures { StandsAlone c result }
{
    match c {
        ' ' => Shape::Space,
        '\t' => Shape::Tab,
        '\n' => Shape::LineEnd,
        _ => Shape::Stray,
    }
}
