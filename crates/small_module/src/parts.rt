// The parts of an expression.
ghost use Rattle.std.specs.Prelude.{◌≡◌, ◌≤◌, ◌∷◌, ◌++◌, [], length, OnOk};
ghost use Rattle.small_module.specs.SmallTree.{number_piece, name_piece, sign_piece, view, View};

use crate::piece::Piece;
use crate::words::{is_known, local_number};
use py_base::{OutOfMemory, Place, Text};
use raw_syntax::{Arithmetic, RawExpr, RawExprForm};

fn number_piece(place: Place, n: i128) -> Piece
    ensures { result ≡ number_piece place n }
{
    if 0 <= n && n <= 999_999_999 {
        return Piece::Number(place, n as u32);
    }
    Piece::Other(place)
}

fn name_piece(names: &[Text], place: Place, name: &[u8]) -> Piece
    requires { length names.now ≤ 60 }
    ensures { result ≡ name_piece names.now place name.now }
{
    if is_known(names, name) {
        return Piece::Known(place, local_number(names, name));
    }
    Piece::Other(place)
}

fn sign_piece(place: Place, operator: Arithmetic) -> Piece
    ensures { result ≡ sign_piece place operator }
{
    match operator {
        Arithmetic::Plus => Piece::Sign(place, 1),
        Arithmetic::Minus => Piece::Sign(place, 2),
        _ => Piece::Other(place),
    }
}

/// The place of an expression, without the brackets around it.
pub fn place_of(e: &RawExpr, names: &[Text]) -> Place
    ensures { result ≡ (view names.now e.now).place }
{
    match &e.form {
        RawExprForm::Bracket(inner) => place_of(inner.get(), names),
        _ => e.place,
    }
}

/// Adds the parts of an expression, where these names are assigned, from left to right.
#[cycle(parts)]
pub fn push_parts(e: &RawExpr, names: &[Text], parts: &mut Vec<Piece>) -> Result<(), OutOfMemory>
    requires { length names.now ≤ 60 }
    ensures { OnOk result (parts.new.items ≡ parts.old.items ++ (view names.now e.now).parts) }
{
    match &e.form {
        RawExprForm::Number(n) => parts.push(number_piece(e.place, *n))?,
        RawExprForm::Name(name) => parts.push(name_piece(names, e.place, name.bytes()))?,
        RawExprForm::Bracket(inner) => push_parts(inner.get(), names, parts)?,
        RawExprForm::Binary(operator, a, b) => {
            push_parts(a.get(), names, parts)?;
            parts.push(sign_piece(e.place, *operator))?;
            push_parts(b.get(), names, parts)?;
        }
        RawExprForm::And(a, b) | RawExprForm::Or(a, b) => {
            push_parts(a.get(), names, parts)?;
            parts.push(Piece::Other(e.place))?;
            push_parts(b.get(), names, parts)?;
        }
        RawExprForm::Field(a, _) | RawExprForm::Call(a, _) | RawExprForm::Chain(a, _) => {
            push_parts(a.get(), names, parts)?;
            parts.push(Piece::Other(e.place))?;
        }
        _ => parts.push(Piece::Other(e.place))?,
    }
    Ok(())
}
