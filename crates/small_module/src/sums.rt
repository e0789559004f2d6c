// Small expressions, from their parts.
ghost use Rattle.std.specs.Prelude.{◌≡◌, [], ◌∷◌, IfOk};
ghost use Rattle.small_module.specs.SmallTree.{number_at, local_at, sum_at, equation_at, piece_place, operand_of, right_of, sum_of};

use crate::lists::split;
use crate::piece::Piece;
use py_base::{OutOfMemory, Place};
use py_syntax::{Expr, ExprForm, Ty};
use sqlite_items::Boxed;
use std::alloc::Global;

fn number_at(place: Place, n: u32) -> Expr
    ensures { result ≡ number_at place n }
{
    Expr {
        place,
        ty: Ty::Int,
        form: ExprForm::Num(i128::from(n)),
    }
}

fn local_at(place: Place, number: u32) -> Expr
    ensures { result ≡ local_at place number }
{
    Expr {
        place,
        ty: Ty::Int,
        form: ExprForm::Local(number),
    }
}

fn sum_at(alloc: Global, mark: Place, key: u16, a: Expr, b: Expr) -> Result<Expr, OutOfMemory>
    ensures { IfOk result (λ e. e ≡ sum_at mark key a b) }
{
    Ok(Expr {
        place: mark,
        ty: Ty::Int,
        form: ExprForm::Bin(key, Boxed::new(alloc, a)?, Boxed::new(alloc, b)?),
    })
}

/// Whether two numbers are equal.
pub fn equation_at(alloc: Global, mark: Place, a: Expr, b: Expr) -> Result<Expr, OutOfMemory>
    ensures { IfOk result (λ e. e ≡ equation_at mark a b) }
{
    Ok(Expr {
        place: mark,
        ty: Ty::Bool,
        form: ExprForm::Bin(11, Boxed::new(alloc, a)?, Boxed::new(alloc, b)?),
    })
}

fn piece_place(part: Piece) -> Place
    ensures { result ≡ piece_place part }
{
    match part {
        Piece::Number(place, _) => place,
        Piece::Known(place, _) => place,
        Piece::Sign(place, _) => place,
        Piece::Other(place) => place,
    }
}

fn operand_of(part: Piece) -> Result<Expr, Place>
    ensures { result ≡ operand_of part }
{
    match part {
        Piece::Number(place, n) => Ok(number_at(place, n)),
        Piece::Known(place, number) => Ok(local_at(place, number)),
        Piece::Sign(place, _) => Err(place),
        Piece::Other(place) => Err(place),
    }
}

// Behind an operand and a sign: one operand, and no more.
fn right_of(
    alloc: Global,
    mark: Place,
    key: u16,
    a: Expr,
    parts: &[Piece],
) -> Result<Result<Expr, Place>, OutOfMemory>
    ensures { IfOk result (λ e. e ≡ right_of mark key a parts.now) }
{
    let Some((y, rest)) = split(parts) else {
        return Ok(Err(mark));
    };
    let b = match operand_of(*y) {
        Ok(b) => b,
        Err(place) => return Ok(Err(place)),
    };
    match split(rest) {
        None => Ok(Ok(sum_at(alloc, mark, key, a, b)?)),
        Some((z, _)) => Ok(Err(piece_place(*z))),
    }
}

/// The small expression of some parts, or the place of the first that isn't one's.
pub fn sum_of(
    alloc: Global,
    place: Place,
    parts: &[Piece],
) -> Result<Result<Expr, Place>, OutOfMemory>
    ensures { IfOk result (λ e. e ≡ sum_of place parts.now) }
{
    let Some((x, rest)) = split(parts) else {
        return Ok(Err(place));
    };
    let Some((z, more)) = split(rest) else {
        return Ok(operand_of(*x));
    };
    let a = match operand_of(*x) {
        Ok(a) => a,
        Err(place) => return Ok(Err(place)),
    };
    match *z {
        Piece::Sign(mark, key) => right_of(alloc, mark, key, a, more),
        _ => Ok(Err(piece_place(*z))),
    }
}
