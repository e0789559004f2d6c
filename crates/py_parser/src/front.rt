// What a token means where it stands.
ghost use Rattle.std.specs.Prelude.{◌≡◌, MatchResult};
ghost use Rattle.py_grammar.specs.Moves.{starts_expr};
ghost use Rattle.py_parser.specs.SimpleFronts.{OpensSimple, Continues};
ghost use Rattle.py_parser.specs.FunctionFronts.{OpensParams};

use expr_parser::fault::Refused;
use expr_parser::fixed::{Word, word_at};
use py_tokens::{Keyword, Mark, Token, TokenForm};
use raw_syntax::Arithmetic;
use std::alloc::Global;

/// What a statement of one line begins with.
#[derive(Clone, Copy, Debug)]
pub enum Front {
    /// `pass`
    Pass,
    /// `break`
    Break,
    /// `continue`
    Continue,
    /// `return`
    Return,
    /// `raise`
    Raise,
    /// `assert`
    Assert,
    /// An expression, if the token begins one.
    Other,
}

/// What a statement of one line that begins with this token is.
pub fn simple_front(first: &Token) -> Front
    ensures { OpensSimple result first.now.place first.now.form }
{
    match &first.form {
        TokenForm::Key(Keyword::Pass) => Front::Pass,
        TokenForm::Key(Keyword::Break) => Front::Break,
        TokenForm::Key(Keyword::Continue) => Front::Continue,
        TokenForm::Key(Keyword::Return) => Front::Return,
        TokenForm::Key(Keyword::Raise) => Front::Raise,
        TokenForm::Key(Keyword::Assert) => Front::Assert,
        _ => Front::Other,
    }
}

/// Some expression begins with this token.
pub fn begins_expression(form: &TokenForm) -> bool
    ensures { result ≡ starts_expr form.now }
{
    match form {
        TokenForm::Name(_) => true,
        TokenForm::Number(_) => true,
        TokenForm::Str(_) => true,
        TokenForm::Key(Keyword::True) => true,
        TokenForm::Key(Keyword::False) => true,
        TokenForm::Key(Keyword::None) => true,
        TokenForm::Key(Keyword::Not) => true,
        TokenForm::Mark(Mark::Minus) => true,
        TokenForm::Mark(Mark::OpenParen) => true,
        _ => false,
    }
}

/// How a statement goes on behind its first expression.
#[derive(Clone, Copy, Debug)]
pub enum Behind {
    /// `:`, and then a type and a value.
    Colon,
    /// `=`
    Assign,
    /// An augmented assignment by this operator.
    Augment(Arithmetic),
    /// Not at all.
    Nothing,
}

/// How a statement goes on with this token behind its first expression.
pub fn what_is_behind(token: &Token) -> Behind
    ensures { Continues result token.now.place token.now.form }
{
    match &token.form {
        TokenForm::Mark(Mark::Colon) => Behind::Colon,
        TokenForm::Mark(Mark::Assign) => Behind::Assign,
        TokenForm::Mark(Mark::PlusAssign) => Behind::Augment(Arithmetic::Plus),
        TokenForm::Mark(Mark::MinusAssign) => Behind::Augment(Arithmetic::Minus),
        TokenForm::Mark(Mark::StarAssign) => Behind::Augment(Arithmetic::Times),
        TokenForm::Mark(Mark::TwoSlashesAssign) => Behind::Augment(Arithmetic::FloorDivide),
        TokenForm::Mark(Mark::PercentAssign) => Behind::Augment(Arithmetic::Modulo),
        _ => Behind::Nothing,
    }
}

/// What a list of parameters begins with, behind its open bracket or a comma.
#[derive(Debug, Drop)]
pub enum ParamsFront {
    /// The closing bracket.
    Close,
    /// The name of a parameter.
    Name(Word),
    /// Neither.
    Other,
}

/// What a list of parameters begins with where this token comes first.
pub fn params_front(alloc: Global, first: &Token) -> Result<ParamsFront, Refused>
    ensures { MatchResult result (λ x. OpensParams x first.now.place first.now.form) (λ f. f ≡ Refused.OutOfMemory) }
{
    match &first.form {
        TokenForm::Mark(Mark::CloseParen) => Ok(ParamsFront::Close),
        TokenForm::Name(name) => Ok(ParamsFront::Name(word_at(first.place, name.copy(alloc)?))),
        _ => Ok(ParamsFront::Other),
    }
}
