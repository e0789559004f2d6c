// Classes.
ghost use Rattle.std.specs.Prelude.{◌≡◌, ◌<◌, ◌≤◌, ◌++◌, List, OnOk, IfErr, IfOk, Some, None, length, [], ◌∷◌};
ghost use Rattle.py_grammar.specs.Symbols.{indent, close_bracket, close_paren, vname, vbase, vfuncs, vitems, fixed, make, ty_atom, doc, base, in_base, base_tail, members, class_body};
ghost use Rattle.py_grammar.specs.Makers.{make_base_of};
ghost use Rattle.py_grammar.specs.ModuleGrammar.{class_of};
ghost use Rattle.raw_syntax.specs.declared.RawItem.{RawItem};
ghost use Rattle.expr_parser.specs.Leads.{LeadsFrom};
ghost use Rattle.py_parser.specs.Openings.{class_symbols};

use crate::opening::{MemberStart, begun, member_start};
use crate::skipped::doc;
use expr_parser::expr::split;
use expr_parser::fault::Refused;
use expr_parser::fixed::{Wanted, Word, name, past, word_at};
use expr_parser::types::{head_alone, head_with, ty_atom};
use py_tokens::{Keyword, Mark, Token, TokenForm};
use raw_syntax::{RawClass, RawFunc, RawItem, RawTy};
use sqlite_items::Items;
use std::alloc::Global;

// A base with its type in square brackets, behind the open one.
#[tactic(auto, using(crate::proofs::ClassRows::make_rows))]
fn base_of(alloc: Global, head: Word, ts: &[Token]) -> Result<(Option<RawTy>, &[Token]), Refused>
    ensures leads { LeadsFrom (ty_atom ∷ fixed close_bracket ∷ fixed close_paren ∷ make make_base_of ∷ []) (vname head.place head.text ∷ []) ts.now (λ x. vbase x.0) (λ x. x.1.now) result }
    ensures shorter { IfOk result (λ x. length x.1.now < length ts.now) }
{
    let (inner, rest) = match ty_atom(alloc, ts) {
        Ok(x) => x,
        Err(f) => return Err(f),
    };
    let rest = match past(Wanted::CloseBracket, rest) {
        Ok(x) => x,
        Err(f) => return Err(f),
    };
    let rest = match past(Wanted::CloseParen, rest) {
        Ok(x) => x,
        Err(f) => return Err(f),
    };
    Ok((Some(head_with(head, inner)), rest))
}

// A base, behind its name.
#[tactic(auto, using(crate::proofs::ClassRows::tail_rows))]
fn base_tail(alloc: Global, head: Word, ts: &[Token]) -> Result<(Option<RawTy>, &[Token]), Refused>
    ensures leads { LeadsFrom (base_tail ∷ []) (vname head.place head.text ∷ []) ts.now (λ x. vbase x.0) (λ x. x.1.now) result }
    ensures shorter { IfOk result (λ x. length x.1.now < length ts.now) }
{
    let Some((first, after)) = split(ts) else {
        return Err(Refused::Unfinished);
    };
    match &first.form {
        TokenForm::Mark(Mark::CloseParen) => Ok((Some(head_alone(head)), after)),
        TokenForm::Mark(Mark::OpenBracket) => base_of(alloc, head, after),
        _ => Err(Refused::Syntax(first.place)),
    }
}

// What stands in the brackets of a base, behind the open one.
#[tactic(auto, using(crate::proofs::ClassRows::in_base_rows))]
fn in_base(alloc: Global, ts: &[Token]) -> Result<(Option<RawTy>, &[Token]), Refused>
    ensures leads { LeadsFrom (in_base ∷ []) [] ts.now (λ x. vbase x.0) (λ x. x.1.now) result }
    ensures shorter { IfOk result (λ x. length x.1.now < length ts.now) }
{
    let Some((first, after)) = split(ts) else {
        return Err(Refused::Unfinished);
    };
    match &first.form {
        TokenForm::Mark(Mark::CloseParen) => Ok((None, after)),
        TokenForm::Name(name) => {
            let head = word_at(first.place, name.copy(alloc)?);
            base_tail(alloc, head, after)
        }
        _ => Err(Refused::Syntax(first.place)),
    }
}

// The base of a class, if one is written.
#[tactic(auto, using(crate::proofs::ClassRows::base_rows))]
fn base(alloc: Global, ts: &[Token]) -> Result<(Option<RawTy>, &[Token]), Refused>
    ensures leads { LeadsFrom (base ∷ []) [] ts.now (λ x. vbase x.0) (λ x. x.1.now) result }
    ensures shorter { IfOk result (λ x. length x.1.now ≤ length ts.now) }
{
    let Some((first, after)) = split(ts) else {
        return Err(Refused::Unfinished);
    };
    let TokenForm::Mark(Mark::OpenParen) = &first.form else {
        return Ok((None, ts));
    };
    in_base(alloc, after)
}

fn push_member(list: &mut Items<RawFunc>, member: RawFunc) -> Result<(), Refused>
    ensures ok { OnOk result (list.new ≡ list.old ++ member ∷ []) }
    ensures err { IfErr result (λ f. f ≡ Refused.OutOfMemory) }
{
    list.push(member)?;
    Ok(())
}

// The members of a class, up to the end of its lines.
#[tactic(auto, using(crate::proofs::ClassRows::member_rows))]
fn members(alloc: Global, ts: &[Token]) -> Result<(Items<RawFunc>, &[Token]), Refused>
    ensures leads { LeadsFrom (members ∷ []) (vfuncs [] ∷ []) ts.now (λ x. vfuncs x.0) (λ x. x.1.now) result }
    ensures shorter { IfOk result (λ x. length x.1.now < length ts.now) }
{
    let mut list: Items<RawFunc> = Items::new(alloc);
    let mut rest = ts;
    'members: while let Some((first, after)) = split(rest) {
        match member_start(first) {
            MemberStart::End => return Ok((list, after)),
            MemberStart::Pass => {
                rest = match past(Wanted::Newline, after) {
                    Ok(x) => x,
                    Err(f) => return Err(f),
                };
            }
            MemberStart::Func(start) => {
                let (made, behind) = match begun(alloc, start, after) {
                    Ok(x) => x,
                    Err(f) => return Err(f),
                };
                push_member(&mut list, made)?;
                rest = behind;
            }
            MemberStart::Other => return Err(Refused::Syntax(first.place)),
        }
    }
    Err(Refused::Unfinished)
}

// The lines of a class, behind the first line's end.
fn member_lines(alloc: Global, ts: &[Token]) -> Result<(Items<RawFunc>, &[Token]), Refused>
    ensures leads { LeadsFrom (fixed indent ∷ doc ∷ members ∷ []) (vfuncs [] ∷ []) ts.now (λ x. vfuncs x.0) (λ x. x.1.now) result }
    ensures shorter { IfOk result (λ x. length x.1.now < length ts.now) }
{
    let rest = match past(Wanted::Indent, ts) {
        Ok(x) => x,
        Err(f) => return Err(f),
    };
    let rest = match doc(rest) {
        Ok(x) => x,
        Err(f) => return Err(f),
    };
    members(alloc, rest)
}

// The body of a class, behind its colon.
#[tactic(auto, using(crate::proofs::ClassRows::body_rows))]
fn class_body(alloc: Global, ts: &[Token]) -> Result<(Items<RawFunc>, &[Token]), Refused>
    ensures leads { LeadsFrom (class_body ∷ []) [] ts.now (λ x. vfuncs x.0) (λ x. x.1.now) result }
    ensures shorter { IfOk result (λ x. length x.1.now < length ts.now) }
{
    let Some((first, after)) = split(ts) else {
        return Err(Refused::Unfinished);
    };
    match &first.form {
        TokenForm::Key(Keyword::Pass) => match past(Wanted::Newline, after) {
            Ok(rest) => Ok((Items::new(alloc), rest)),
            Err(f) => Err(f),
        },
        TokenForm::Newline => member_lines(alloc, after),
        _ => Err(Refused::Syntax(first.place)),
    }
}

fn class_node(name: Word, base: Option<RawTy>, members: Items<RawFunc>) -> RawClass
    ensures { result ≡ class_of name.place name.text base members }
{
    RawClass {
        place: name.place,
        name: name.text,
        base,
        members,
    }
}

/// A class, behind the word `class`.
#[tactic(auto, using(crate::proofs::ClassRows::make_rows))]
pub fn class(alloc: Global, ts: &[Token]) -> Result<(RawClass, &[Token]), Refused>
    ensures leads { (xs : List RawItem) → LeadsFrom class_symbols (vitems xs ∷ []) ts.now (λ x. vitems (xs ++ RawItem.Class x.0 ∷ [])) (λ x. x.1.now) result }
    ensures shorter { IfOk result (λ x. length x.1.now < length ts.now) }
{
    let (name, rest) = match name(alloc, ts) {
        Ok(x) => x,
        Err(f) => return Err(f),
    };
    let (base, rest) = match base(alloc, rest) {
        Ok(x) => x,
        Err(f) => return Err(f),
    };
    let rest = match past(Wanted::Colon, rest) {
        Ok(x) => x,
        Err(f) => return Err(f),
    };
    let (members, rest) = match class_body(alloc, rest) {
        Ok(x) => x,
        Err(f) => return Err(f),
    };
    Ok((class_node(name, base, members), rest))
}
