// The first token of an operand.
ghost use Rattle.std.specs.Prelude.{◌≡◌, MatchResult, MatchOption};
ghost use Rattle.py_base.specs.declared.Place.{Place};
ghost use Rattle.py_grammar.specs.ExprGrammar.{node};
ghost use Rattle.expr_parser.specs.Leads.{StartsWith, LinksBy, Follows};

use crate::fault::Refused;
use py_base::Place;
use py_tokens::{Keyword, Mark, Token, TokenForm};
use raw_syntax::{Comparison, RawExpr, RawExprForm};
use std::alloc::Global;

/// What an operand begins with.
#[derive(Debug, Drop)]
pub enum Start {
    /// A prefix `-`.
    Minus,
    /// An open bracket.
    Open,
    /// An operand of one token.
    Leaf(RawExpr),
    /// No operand begins so.
    Other,
}

fn leaf(place: Place, form: RawExprForm) -> Start
    ensures { result ≡ Start.Leaf (node place form) }
{
    Start::Leaf(RawExpr { place, form })
}

pub fn operand_start(alloc: Global, first: &Token) -> Result<Start, Refused>
    ensures { MatchResult result (λ s. StartsWith s first.now.place first.now.form) (λ f. f ≡ Refused.OutOfMemory) }
{
    match &first.form {
        TokenForm::Mark(Mark::Minus) => Ok(Start::Minus),
        TokenForm::Mark(Mark::OpenParen) => Ok(Start::Open),
        TokenForm::Name(name) => Ok(leaf(first.place, RawExprForm::Name(name.copy(alloc)?))),
        TokenForm::Str(text) => Ok(leaf(first.place, RawExprForm::Str(text.copy(alloc)?))),
        TokenForm::Number(number) => Ok(leaf(first.place, RawExprForm::Number(*number))),
        TokenForm::Key(Keyword::True) => Ok(leaf(first.place, RawExprForm::Truth(true))),
        TokenForm::Key(Keyword::False) => Ok(leaf(first.place, RawExprForm::Truth(false))),
        TokenForm::Key(Keyword::None) => Ok(leaf(first.place, RawExprForm::Nil)),
        _ => Ok(Start::Other),
    }
}

/// What a link of a chain begins with.
#[derive(Clone, Copy, Debug)]
pub enum LinkStart {
    /// The word `is`, which may go on with `not`.
    Is,
    /// An operator of one token.
    Plain(Comparison),
}

/// The operator of a chain that the token is or begins.
pub fn link_sign(token: &Token) -> Option<LinkStart>
    ensures { LinksBy result token.now.place token.now.form }
{
    match &token.form {
        TokenForm::Mark(Mark::Less) => Some(LinkStart::Plain(Comparison::Less)),
        TokenForm::Mark(Mark::LessEqual) => Some(LinkStart::Plain(Comparison::LessEqual)),
        TokenForm::Mark(Mark::Greater) => Some(LinkStart::Plain(Comparison::Greater)),
        TokenForm::Mark(Mark::GreaterEqual) => Some(LinkStart::Plain(Comparison::GreaterEqual)),
        TokenForm::Mark(Mark::Equal) => Some(LinkStart::Plain(Comparison::Equal)),
        TokenForm::Mark(Mark::NotEqual) => Some(LinkStart::Plain(Comparison::NotEqual)),
        TokenForm::Key(Keyword::Is) => Some(LinkStart::Is),
        _ => None,
    }
}

/// What stands behind a part of a list in brackets.
#[derive(Clone, Copy, Debug)]
pub enum Follow {
    /// The closing bracket.
    Close,
    /// A comma.
    Comma,
    /// Neither.
    Other,
}

/// What the token is behind a part of a list in brackets.
pub fn what_follows(token: &Token) -> Follow
    ensures { Follows result token.now.form }
{
    match &token.form {
        TokenForm::Mark(Mark::CloseParen) => Follow::Close,
        TokenForm::Mark(Mark::Comma) => Follow::Comma,
        _ => Follow::Other,
    }
}
