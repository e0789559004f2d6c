// Nodes over nodes.
ghost use Rattle.std.specs.Prelude.{◌≡◌, ◌++◌, ◌∷◌, [], MatchResult, OnOk, IfErr};
ghost use Rattle.py_grammar.specs.ExprGrammar.{node, link, place_of};

use crate::fault::Refused;
use py_base::{Place, Text};
use raw_syntax::{Arithmetic, Comparison, RawArgument, RawComparison, RawExpr, RawExprForm};
use sqlite_items::{Boxed, Items};
use std::alloc::Global;

pub fn or_node(
    alloc: Global,
    place: Place,
    left: RawExpr,
    right: RawExpr,
) -> Result<RawExpr, Refused>
    ensures { MatchResult result (λ x. x ≡ node place (RawExprForm.Or left right)) (λ f. f ≡ Refused.OutOfMemory) }
{
    Ok(RawExpr {
        place,
        form: RawExprForm::Or(Boxed::new(alloc, left)?, Boxed::new(alloc, right)?),
    })
}

pub fn and_node(
    alloc: Global,
    place: Place,
    left: RawExpr,
    right: RawExpr,
) -> Result<RawExpr, Refused>
    ensures { MatchResult result (λ x. x ≡ node place (RawExprForm.And left right)) (λ f. f ≡ Refused.OutOfMemory) }
{
    Ok(RawExpr {
        place,
        form: RawExprForm::And(Boxed::new(alloc, left)?, Boxed::new(alloc, right)?),
    })
}

pub fn not_node(alloc: Global, place: Place, operand: RawExpr) -> Result<RawExpr, Refused>
    ensures { MatchResult result (λ x. x ≡ node place (RawExprForm.Not operand)) (λ f. f ≡ Refused.OutOfMemory) }
{
    Ok(RawExpr {
        place,
        form: RawExprForm::Not(Boxed::new(alloc, operand)?),
    })
}

pub fn negate_node(alloc: Global, place: Place, operand: RawExpr) -> Result<RawExpr, Refused>
    ensures { MatchResult result (λ x. x ≡ node place (RawExprForm.Negate operand)) (λ f. f ≡ Refused.OutOfMemory) }
{
    Ok(RawExpr {
        place,
        form: RawExprForm::Negate(Boxed::new(alloc, operand)?),
    })
}

pub fn binary_node(
    alloc: Global,
    place: Place,
    sign: Arithmetic,
    left: RawExpr,
    right: RawExpr,
) -> Result<RawExpr, Refused>
    ensures { MatchResult result (λ x. x ≡ node place (RawExprForm.Binary sign left right)) (λ f. f ≡ Refused.OutOfMemory) }
{
    Ok(RawExpr {
        place,
        form: RawExprForm::Binary(sign, Boxed::new(alloc, left)?, Boxed::new(alloc, right)?),
    })
}

pub fn field_node(
    alloc: Global,
    place: Place,
    object: RawExpr,
    name: &Text,
) -> Result<RawExpr, Refused>
    ensures { MatchResult result (λ x. x ≡ node place (RawExprForm.Field object name.now)) (λ f. f ≡ Refused.OutOfMemory) }
{
    Ok(RawExpr {
        place,
        form: RawExprForm::Field(Boxed::new(alloc, object)?, name.copy(alloc)?),
    })
}

pub fn call_node(
    alloc: Global,
    called: RawExpr,
    args: Items<RawArgument>,
) -> Result<RawExpr, Refused>
    ensures { MatchResult result (λ x. x ≡ node (place_of called) (RawExprForm.Call called args)) (λ f. f ≡ Refused.OutOfMemory) }
{
    Ok(RawExpr {
        place: called.place,
        form: RawExprForm::Call(Boxed::new(alloc, called)?, args),
    })
}

pub fn bracket_node(alloc: Global, place: Place, inner: RawExpr) -> Result<RawExpr, Refused>
    ensures { MatchResult result (λ x. x ≡ node place (RawExprForm.Bracket inner)) (λ f. f ≡ Refused.OutOfMemory) }
{
    Ok(RawExpr {
        place,
        form: RawExprForm::Bracket(Boxed::new(alloc, inner)?),
    })
}

pub fn tuple_node(place: Place, elements: Items<RawExpr>) -> RawExpr
    ensures { result ≡ node place (RawExprForm.Tuple elements) }
{
    RawExpr {
        place,
        form: RawExprForm::Tuple(elements),
    }
}

pub fn chain_node(
    alloc: Global,
    place: Place,
    first: RawExpr,
    links: Items<RawComparison>,
) -> Result<RawExpr, Refused>
    ensures { MatchResult result (λ x. x ≡ node place (RawExprForm.Chain first links)) (λ f. f ≡ Refused.OutOfMemory) }
{
    Ok(RawExpr {
        place,
        form: RawExprForm::Chain(Boxed::new(alloc, first)?, links),
    })
}

pub fn push_link(
    links: &mut Items<RawComparison>,
    place: Place,
    operator: Comparison,
    operand: RawExpr,
) -> Result<(), Refused>
    ensures ok { OnOk result (links.new ≡ links.old ++ link place operator operand ∷ []) }
    ensures err { IfErr result (λ f. f ≡ Refused.OutOfMemory) }
{
    links.push(RawComparison {
        place,
        operator,
        operand,
    })?;
    Ok(())
}

pub fn push_arg(args: &mut Items<RawArgument>, arg: RawArgument) -> Result<(), Refused>
    ensures ok { OnOk result (args.new ≡ args.old ++ arg ∷ []) }
    ensures err { IfErr result (λ f. f ≡ Refused.OutOfMemory) }
{
    args.push(arg)?;
    Ok(())
}

pub fn push_element(elements: &mut Items<RawExpr>, element: RawExpr) -> Result<(), Refused>
    ensures ok { OnOk result (elements.new ≡ elements.old ++ element ∷ []) }
    ensures err { IfErr result (λ f. f ≡ Refused.OutOfMemory) }
{
    elements.push(element)?;
    Ok(())
}

pub fn one_element(alloc: Global, element: RawExpr) -> Result<Items<RawExpr>, Refused>
    ensures { MatchResult result (λ x. x ≡ element ∷ []) (λ f. f ≡ Refused.OutOfMemory) }
{
    let mut list: Items<RawExpr> = Items::new(alloc);
    list.push(element)?;
    Ok(list)
}
