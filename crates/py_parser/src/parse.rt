// The tree of a list of tokens.
ghost use Rattle.std.specs.Prelude.{List};
ghost use Rattle.py_tokens.specs.declared.Token.{Token};
ghost use Rattle.py_parser.specs.Limits.{HasLongLine};
ghost use Rattle.py_parser.specs.Depths.{IsNowhereDeep, IsDeepAt};
ghost use Rattle.py_parser.specs.Parsing.{IsRead, IsFault, IsAnswer};
ghost use Rattle.py_parser.specs.Reading.{IsEnded, IsReading};

use crate::count::{has_methods_within, has_statements_within};
use crate::deep::first_deep;
use crate::fault::ParseFault;
use crate::long::has_long_line;
use crate::module::module;
use expr_parser::expr::split;
use expr_parser::fault::Refused;
use py_grammar::the_machine_reads_the_grammar;
use py_tokens::Token;
use raw_syntax::Raw;
use std::alloc::Global;

/// The number of statements that a module may have.
pub const STATEMENT_LIMIT: usize = 20_000;

/// The number of functions that a module may have.
pub const METHOD_LIMIT: usize = 1_000;

// What all tokens spell.
fn read(alloc: Global, ts: &[Token]) -> Result<Raw, Refused>
    ensures { IsReading ts.now result }
{
    the_machine_reads_the_grammar();
    let (tree, rest) = match module(alloc, ts) {
        Ok(x) => x,
        Err(f) => return Err(f),
    };
    match split(rest) {
        None => Ok(tree),
        Some((token, _)) => Err(Refused::Syntax(token.place)),
    }
}

// Why tokens are refused of which the one is the first that is nested too deep.
fn before_deep(alloc: Global, ts: &[Token], before: &[Token], token: &Token) -> ParseFault
    requires lines { ¬ (HasLongLine 2000 ts.now) }
    requires deep { (after : List Token) × IsDeepAt 100 ts.now before.now token.now after }
    ensures { IsFault ts.now result }
{
    let place = match read(alloc, before) {
        Ok(_) => return ParseFault::TooDeep(token.place),
        Err(Refused::Unfinished) => return ParseFault::TooDeep(token.place),
        Err(Refused::OutOfMemory) => return ParseFault::OutOfMemory,
        Err(Refused::Syntax(place)) => place,
    };
    if place == token.place {
        return ParseFault::TooDeep(place);
    }
    ParseFault::Syntax(place)
}

// The tree, if it has no more statements and functions than the limits.
fn kept(tree: Raw) -> Result<Raw, ParseFault>
    ensures { (ts : List Token) → IsRead ts tree → IsAnswer ts result }
{
    if !has_statements_within(&tree, STATEMENT_LIMIT) {
        return Err(ParseFault::TooManyStatements);
    }
    if !has_methods_within(&tree, METHOD_LIMIT) {
        return Err(ParseFault::TooManyMethods);
    }
    Ok(tree)
}

// The tree of tokens none of which is nested too deep.
fn shallow(alloc: Global, ts: &[Token]) -> Result<Raw, ParseFault>
    requires ended { IsEnded ts.now }
    requires lines { ¬ (HasLongLine 2000 ts.now) }
    requires depth { IsNowhereDeep 100 ts.now }
    ensures { IsAnswer ts.now result }
{
    match read(alloc, ts) {
        Ok(tree) => kept(tree),
        Err(Refused::Syntax(place)) => Err(ParseFault::Syntax(place)),
        Err(Refused::OutOfMemory) => Err(ParseFault::OutOfMemory),
        Err(Refused::Unfinished) => unreachable!(),
    }
}

/// The tree of a list of tokens that ends with the end of a text, or why it has none within the limits.
pub fn parse(alloc: Global, tokens: &[Token]) -> Result<Raw, ParseFault>
    requires { IsEnded tokens.now }
    ensures { IsAnswer tokens.now result }
{
    if has_long_line(tokens) {
        return Err(ParseFault::LineTooLong);
    }
    match first_deep(tokens) {
        Some((before, token)) => Err(before_deep(alloc, tokens, before, token)),
        None => shallow(alloc, tokens),
    }
}
