// The module of a text.
ghost use Rattle.std.specs.Prelude.{◌≡◌, ◌<◌, ◌-◌, ◌^◌, ℕ, List, Err, length};
ghost use Rattle.py_tokens.specs.TextTokens.{Tokens};
ghost use Rattle.py_parser.specs.Reading.{IsEnded};
ghost use Rattle.py_front.specs.Answers.{IsFront, of_lex, of_parse};

use crate::fault::FrontFault;
use crate::trees::module_of_tree;
use py_lexer::lex;
use py_parser::fault::ParseFault;
use py_parser::parse::parse;
use py_syntax::Module;
use py_tokens::{LexFault, Token};
use std::alloc::Global;

fn of_lex(fault: LexFault) -> FrontFault
    ensures { result ≡ of_lex fault }
{
    match fault {
        LexFault::BadUtf8(place) => FrontFault::BadUtf8(place),
        LexFault::BadCharacter(place) => FrontFault::BadCharacter(place),
        LexFault::TabInIndent(place) => FrontFault::TabInIndent(place),
        LexFault::BadDedent(place) => FrontFault::BadDedent(place),
        LexFault::OpenString(place) => FrontFault::OpenString(place),
        LexFault::LiteralTooLarge(place) => FrontFault::LiteralTooLarge(place),
        LexFault::NameNotNfkc(place) => FrontFault::NameNotNfkc(place),
        LexFault::NameTooLong(place) => FrontFault::NameTooLong(place),
        LexFault::OutOfMemory => FrontFault::OutOfMemory,
    }
}

fn of_parse(fault: ParseFault) -> FrontFault
    ensures { result ≡ of_parse fault }
{
    match fault {
        ParseFault::Syntax(place) => FrontFault::Syntax(place),
        ParseFault::TooDeep(place) => FrontFault::TooDeep(place),
        ParseFault::LineTooLong => FrontFault::LineTooLong,
        ParseFault::TooManyStatements => FrontFault::TooManyStatements,
        ParseFault::TooManyMethods => FrontFault::TooManyMethods,
        ParseFault::OutOfMemory => FrontFault::OutOfMemory,
    }
}

// The module of a text with these tokens.
fn module_of_tokens(alloc: Global, tokens: &[Token]) -> Result<Module, FrontFault>
    requires { IsEnded tokens.now }
    ensures { (text : List ℕ) → Tokens text tokens.now → ¬ (result ≡ Err FrontFault.OutOfMemory) → IsFront text result }
{
    match parse(alloc, tokens) {
        Ok(tree) => module_of_tree(alloc, &tree),
        Err(fault) => Err(of_parse(fault)),
    }
}

/// The module that the bytes of a text spell, or the first fault in the order of refusals.
#[tactic(auto, using(crate::proofs::Answering::front_not_lexed, crate::proofs::Answering::tokens_end))]
pub fn front(alloc: Global, text: &[u8]) -> Result<Module, FrontFault>
    requires { length text.now < 2 ^ 32 - 1 }
    ensures { ¬ (result ≡ Err FrontFault.OutOfMemory) → IsFront text.now result }
{
    match lex(alloc, text) {
        Ok(tokens) => module_of_tokens(alloc, &tokens),
        Err(fault) => Err(of_lex(fault)),
    }
}
