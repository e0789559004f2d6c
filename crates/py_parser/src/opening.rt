// What a member of a class and an item of a module begin with.
ghost use Rattle.std.specs.Prelude.{◌≡◌, ◌<◌, IfOk, length, [], ◌∷◌};
ghost use Rattle.py_grammar.specs.Symbols.{vfunc, vmarks};
ghost use Rattle.expr_parser.specs.Leads.{LeadsFrom};
ghost use Rattle.py_parser.specs.Openings.{func_symbols, MemberBy, ItemBy};

use crate::function::{decorated, function};
use expr_parser::fault::Refused;
use py_tokens::{Keyword, Mark, Token, TokenForm};
use raw_syntax::RawFunc;
use sqlite_items::Items;
use std::alloc::Global;

/// What a function begins with.
#[derive(Clone, Copy, Debug)]
pub enum FuncStart {
    /// The word `def`.
    Def,
    /// The mark of a decorator.
    Decorator,
}

/// What a member of a class begins with.
#[derive(Clone, Copy, Debug)]
pub enum MemberStart {
    /// The word `pass`.
    Pass,
    /// A function.
    Func(FuncStart),
    /// The members end here.
    End,
    /// No member begins so.
    Other,
}

/// What an item of a module begins with.
#[derive(Clone, Copy, Debug)]
pub enum ItemStart {
    /// The word `class`.
    Class,
    /// A function.
    Func(FuncStart),
    /// The text ends here.
    End,
    /// No item begins so.
    Other,
}

/// What begins with this token in a class.
pub fn member_start(token: &Token) -> MemberStart
    ensures { MemberBy result token.now.form }
{
    match &token.form {
        TokenForm::Dedent => MemberStart::End,
        TokenForm::Key(Keyword::Pass) => MemberStart::Pass,
        TokenForm::Key(Keyword::Def) => MemberStart::Func(FuncStart::Def),
        TokenForm::Mark(Mark::At) => MemberStart::Func(FuncStart::Decorator),
        _ => MemberStart::Other,
    }
}

/// What begins with this token in a module.
pub fn item_start(token: &Token) -> ItemStart
    ensures { ItemBy result token.now.place token.now.form }
{
    match &token.form {
        TokenForm::End => ItemStart::End,
        TokenForm::Key(Keyword::Class) => ItemStart::Class,
        TokenForm::Key(Keyword::Def) => ItemStart::Func(FuncStart::Def),
        TokenForm::Mark(Mark::At) => ItemStart::Func(FuncStart::Decorator),
        _ => ItemStart::Other,
    }
}

/// A function, behind its first token.
pub fn begun(alloc: Global, start: FuncStart, ts: &[Token]) -> Result<(RawFunc, &[Token]), Refused>
    ensures leads { LeadsFrom (func_symbols start) (vmarks [] ∷ []) ts.now (λ x. vfunc x.0) (λ x. x.1.now) result }
    ensures shorter { IfOk result (λ x. length x.1.now < length ts.now) }
{
    match start {
        FuncStart::Def => function(alloc, Items::new(alloc), ts),
        FuncStart::Decorator => decorated(alloc, ts),
    }
}
