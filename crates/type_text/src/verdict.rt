// What is found of the types and contracts of a text.
ghost use Rattle.std.specs.Prelude.{◌≡◌, ◌+◌, ◌<◌, ◌^◌, length, IfOk, IsSomeAnd};
ghost use Rattle.class_table.specs.declared.ClassFault.TheVariants as classing;
ghost use Rattle.py_parser.specs.declared.fault.ParseFault.TheVariants as parsing;
ghost use Rattle.py_tokens.specs.declared.LexFault.TheVariants as lexing;
ghost use Rattle.py_parser.specs.Reading.{IsEnded};
ghost use Rattle.py_types.specs.TreeFaults.{type_faults};
ghost use Rattle.py_types.specs.Typing.{told};
ghost use Rattle.contract_forms.specs.Faults.{contract_faults};
ghost use Rattle.type_text.specs.Verdicts.{IsSoundBy, IsTypedBy, IsTreeVerdict, IsTokenVerdict, IsVerdict};
ghost use Rattle.type_text.specs.declared.verdict.Verdict.TheVariants.{NotTyped, Faulty};

use class_table::{ClassFault, Classes, build};
use contract_forms::first_contract_fault;
use contract_kinds::Breach;
use py_base::OutOfMemory;
use py_lexer::lex;
use py_parser::fault::ParseFault;
use py_parser::parse::parse;
use py_tokens::{LexFault, Token};
use py_types::{TypeFault, type_module};
use raw_syntax::Raw;
use std::alloc::Global;
use type_base::{Fault, Rank};

/// What is found of the types and contracts of a text.
#[derive(Clone, Copy, Debug)]
pub enum Verdict {
    /// The text has no tree, or no classes.
    NotTyped,
    /// It has no fault.
    Typed,
    /// Its first fault of types.
    Faulty(Fault),
    /// Its first breach of the rules on contracts, where it has no fault of types.
    Broken(Breach),
}

// What is found where there are no types.
fn without_types(fault: TypeFault) -> Result<Verdict, OutOfMemory>
    ensures { IfOk result (λ v. IsSomeAnd (told fault) (λ f. v ≡ Faulty f)) }
{
    match fault {
        TypeFault::Mistyped(place, rule) => Ok(Verdict::Faulty(Fault {
            place,
            rank: Rank::Mistyped(rule),
        })),
        TypeFault::BoolAsInt(place) => Ok(Verdict::Faulty(Fault {
            place,
            rank: Rank::BoolAsInt,
        })),
        TypeFault::Unassigned(place) => Ok(Verdict::Faulty(Fault {
            place,
            rank: Rank::Unassigned,
        })),
        TypeFault::OutOfMemory => Err(OutOfMemory),
    }
}

// What is found of a tree without faults of types.
fn verdict_of_contracts(alloc: Global, raw: &Raw) -> Result<Verdict, OutOfMemory>
    ensures { IfOk result (IsSoundBy (contract_faults raw.now)) }
{
    match first_contract_fault(alloc, raw)? {
        Some(breach) => Ok(Verdict::Broken(breach)),
        None => Ok(Verdict::Typed),
    }
}

#[tactic(auto, using(crate::proofs::Told::of_type_fault, crate::proofs::Told::of_sound))]
fn verdict_with(alloc: Global, raw: &Raw, classes: &Classes) -> Result<Verdict, OutOfMemory>
    ensures { IfOk result (IsTypedBy (type_faults raw.now classes.now) (contract_faults raw.now)) }
{
    match type_module(alloc, raw, classes) {
        Ok(_typed) => verdict_of_contracts(alloc, raw),
        Err(fault) => without_types(fault),
    }
}

// What is found where there are no classes.
fn without_classes(fault: ClassFault) -> Result<Verdict, OutOfMemory>
    ensures { IfOk result (λ v. (v ≡ NotTyped) × ¬ (fault ≡ classing.OutOfMemory)) }
{
    match fault {
        ClassFault::DuplicateName(_) => Ok(Verdict::NotTyped),
        ClassFault::UnknownBase(_) => Ok(Verdict::NotTyped),
        ClassFault::BaseCycle(_) => Ok(Verdict::NotTyped),
        ClassFault::BadInit(_) => Ok(Verdict::NotTyped),
        ClassFault::NoMain(_) => Ok(Verdict::NotTyped),
        ClassFault::OutOfMemory => Err(OutOfMemory),
    }
}

#[tactic(auto, using(crate::proofs::Told::of_classes, crate::proofs::Told::of_class_fault))]
fn verdict_of_tree(alloc: Global, raw: &Raw) -> Result<Verdict, OutOfMemory>
    ensures { IfOk result (IsTreeVerdict raw.now) }
{
    match build(alloc, raw) {
        Ok(classes) => verdict_with(alloc, raw, &classes),
        Err(fault) => without_classes(fault),
    }
}

// What is found where there is no tree.
fn without_tree(fault: ParseFault) -> Result<Verdict, OutOfMemory>
    ensures { IfOk result (λ v. (v ≡ NotTyped) × ¬ (fault ≡ parsing.OutOfMemory)) }
{
    match fault {
        ParseFault::Syntax(_) => Ok(Verdict::NotTyped),
        ParseFault::TooDeep(_) => Ok(Verdict::NotTyped),
        ParseFault::LineTooLong => Ok(Verdict::NotTyped),
        ParseFault::TooManyStatements => Ok(Verdict::NotTyped),
        ParseFault::TooManyMethods => Ok(Verdict::NotTyped),
        ParseFault::OutOfMemory => Err(OutOfMemory),
    }
}

#[tactic(auto, using(crate::proofs::Told::of_tree, crate::proofs::Told::of_fault))]
fn verdict_of_tokens(alloc: Global, tokens: &[Token]) -> Result<Verdict, OutOfMemory>
    requires { IsEnded tokens.now }
    ensures { IfOk result (IsTokenVerdict tokens.now) }
{
    match parse(alloc, tokens) {
        Ok(raw) => verdict_of_tree(alloc, &raw),
        Err(fault) => without_tree(fault),
    }
}

// What is found where there are no tokens.
fn without_tokens(fault: LexFault) -> Result<Verdict, OutOfMemory>
    ensures { IfOk result (λ v. (v ≡ NotTyped) × ¬ (fault ≡ lexing.OutOfMemory)) }
{
    match fault {
        LexFault::BadUtf8(_) => Ok(Verdict::NotTyped),
        LexFault::BadCharacter(_) => Ok(Verdict::NotTyped),
        LexFault::TabInIndent(_) => Ok(Verdict::NotTyped),
        LexFault::BadDedent(_) => Ok(Verdict::NotTyped),
        LexFault::OpenString(_) => Ok(Verdict::NotTyped),
        LexFault::LiteralTooLarge(_) => Ok(Verdict::NotTyped),
        LexFault::NameNotNfkc(_) => Ok(Verdict::NotTyped),
        LexFault::NameTooLong(_) => Ok(Verdict::NotTyped),
        LexFault::OutOfMemory => Err(OutOfMemory),
    }
}

#[tactic(auto, using(crate::proofs::Told::tokens_end, crate::proofs::Told::of_tokens, crate::proofs::Told::of_lex_fault))]
fn verdict_within(alloc: Global, text: &[u8]) -> Result<Verdict, OutOfMemory>
    requires { length text.now + 1 < 2 ^ 32 }
    ensures { IfOk result (IsVerdict text.now) }
{
    match lex(alloc, text) {
        Ok(tokens) => verdict_of_tokens(alloc, &tokens),
        Err(fault) => without_tokens(fault),
    }
}

/// What is found of a text. One of 2^32 - 1 bytes or more is answered as one for which there is no memory.
pub fn verdict_of(alloc: Global, text: &[u8]) -> Result<Verdict, OutOfMemory>
    ensures { IfOk result (IsVerdict text.now) }
{
    if text.len() >= 0xffff_ffff {
        return Err(OutOfMemory);
    }
    verdict_within(alloc, text)
}
