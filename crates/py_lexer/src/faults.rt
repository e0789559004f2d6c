// The first fault of a piece.
ghost use Rattle.std.specs.Prelude.{◌≡◌, ℕ, List, Option, Some, None, OnOk, IfOk, IfErr};
ghost use Rattle.std.specs.Str.{IsUtf8, chars};
ghost use Rattle.unicode_normalization.specs.Forms.{is_in_form};
ghost use Rattle.unicode_normalization.specs.declared.Form.{Form};
ghost use Rattle.py_lexer.specs.Walk.{
  begins_token,
  begins_as_name,
  dedent_fault,
  front_fault,
  name_fault,
  shape_fault,
  fault_of,
  IsTextName,
};

use crate::layout::{Layout, LineFront};
use crate::places::as_text;
use crate::widths::Widths;
use py_base::{Place, Text};
use py_tokens::{LexFault, Piece, Shape, TokenForm};
use std::alloc::{AllocError, Global};

// The longest name has so many bytes.
const LONGEST_NAME: usize = 255;

/// The first fault of a piece, if it has one, by what stands in front of it.
pub fn fault_at(
    alloc: Global,
    layout: &Layout,
    piece: &Piece,
) -> Result<Option<LexFault>, AllocError>
    requires { IsTextName piece.now }
    ensures { IfOk result (λ fault. fault ≡ fault_of layout.now.line layout.now.widths piece.now) }
{
    match front_fault(layout.line, &layout.widths, piece) {
        Some(fault) => Ok(Some(fault)),
        None => shape_fault(alloc, piece.place, &piece.shape),
    }
}

fn begins_token(shape: &Shape) -> bool
    ensures { result ≡ begins_token shape.now }
{
    match shape {
        Shape::Whole(_) | Shape::LargeNumber | Shape::BadEscape(_) | Shape::Unclosed => true,
        _ => false,
    }
}

fn begins_as_name(shape: &Shape) -> bool
    ensures { result ≡ begins_as_name shape.now }
{
    match shape {
        Shape::Whole(TokenForm::Name(_) | TokenForm::Key(_) | TokenForm::Number(_)) => true,
        Shape::LargeNumber => true,
        _ => false,
    }
}

fn front_fault(line: LineFront, widths: &Widths, piece: &Piece) -> Option<LexFault>
    ensures { result ≡ front_fault line widths.now piece.now }
{
    match line {
        LineFront::Spaces | LineFront::Comment => dedent_fault(widths, piece),
        LineFront::Tab(place) => {
            if begins_token(&piece.shape) {
                Some(LexFault::TabInIndent(place))
            } else {
                None
            }
        }
        LineFront::Number(_) => {
            if begins_as_name(&piece.shape) {
                Some(LexFault::BadCharacter(piece.place))
            } else {
                None
            }
        }
        LineFront::Behind(_) => None,
    }
}

fn dedent_fault(widths: &Widths, piece: &Piece) -> Option<LexFault>
    ensures { result ≡ dedent_fault widths.now piece.now }
{
    if begins_token(&piece.shape) && widths.is_new_below(piece.place.col.saturating_sub(1)) {
        Some(LexFault::BadDedent(piece.place))
    } else {
        None
    }
}

fn shape_fault(alloc: Global, place: Place, shape: &Shape) -> Result<Option<LexFault>, AllocError>
    requires { (name : List ℕ) → shape.now ≡ Shape.Whole (TokenForm.Name name) → IsUtf8 name }
    ensures { IfOk result (λ fault. fault ≡ shape_fault place shape.now) }
{
    match shape {
        Shape::Whole(TokenForm::Name(name)) => name_fault(alloc, place, name),
        Shape::LargeNumber => Ok(Some(LexFault::LiteralTooLarge(place))),
        Shape::BadEscape(backslash) => Ok(Some(LexFault::BadCharacter(*backslash))),
        Shape::Unclosed => Ok(Some(LexFault::OpenString(place))),
        Shape::Stray => Ok(Some(LexFault::BadCharacter(place))),
        _ => Ok(None),
    }
}

fn name_fault(alloc: Global, place: Place, name: &Text) -> Result<Option<LexFault>, AllocError>
    requires { IsUtf8 name.now }
    ensures { IfOk result (λ fault. fault ≡ name_fault place name.now) }
{
    if name.bytes().len() > LONGEST_NAME {
        return Ok(Some(LexFault::NameTooLong(place)));
    }
    if is_nfkc(alloc, name)? {
        Ok(None)
    } else {
        Ok(Some(LexFault::NameNotNfkc(place)))
    }
}

#[tactic(auto, using(crate::proofs::Forms::test_of_form))]
fn is_nfkc(alloc: Global, name: &Text) -> Result<bool, AllocError>
    requires { IsUtf8 name.now }
    ensures { IfOk result (λ normal. normal ≡ is_in_form Form.Nfkc (chars name.now)) }
{
    unicode_normalization::is_nfkc(alloc, as_text(name.bytes()))
}
