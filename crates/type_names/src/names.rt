// What names mean.
ghost use Rattle.std.specs.Prelude.{◌≡◌, ◌<◌, ◌^◌, length, is_some, option_copied};
ghost use Rattle.class_table.specs.Lookup.{base_in};
ghost use Rattle.type_names.specs.Names.{variable_in, built_in_meaning, has_owner, is_signature_of, signature_of, method_of, base_of, declared_meaning, name_meaning, lock_meaning, thread_meaning, own_lock_meaning, object_meaning, method_meaning, label_meaning};

use crate::contracts::contract_named;
use crate::meaning::{Label, Meaning};
use crate::signature::{Scope, Signature, Variable};
use class_table::Classes;
use py_syntax::Ty;
use type_base::{class_named, locked_by};

/// The parameter or local of this name.
pub fn variable_in<'a>(variables: &'a [Variable], word: &[u8]) -> Option<&'a Variable>
    ensures { option_copied result ≡ variable_in variables.now word.now }
{
    variables
        .iter()
        .find(|variable| word == variable.name.bytes())
}

/// Whether the name is a parameter or local, which hides what the module has of this name.
pub fn is_hidden(scope: &Scope, word: &[u8]) -> bool
    ensures { result ≡ is_some (variable_in scope.now.variables word.now) }
{
    match variable_in(scope.variables.as_slice(), word) {
        Some(_) => true,
        None => false,
    }
}

fn built_in_meaning(word: &[u8]) -> Option<Meaning>
    ensures { result ≡ built_in_meaning word.now }
{
    if word == b"print".as_slice() {
        return Some(Meaning::Print);
    }
    if word == b"super".as_slice() {
        return Some(Meaning::Super);
    }
    if word == b"Thread".as_slice() {
        return Some(Meaning::Thread);
    }
    match contract_named(word) {
        Some(contract) => Some(Meaning::Contract(contract)),
        None => None,
    }
}

fn has_owner(a: Option<u32>, b: Option<u32>) -> bool
    ensures { result ≡ has_owner a b }
{
    match a {
        None => b.is_none(),
        Some(c) => match b {
            Some(d) => c == d,
            None => false,
        },
    }
}

fn is_signature_of(owner: Option<u32>, word: &[u8], signature: &Signature) -> bool
    ensures { result ≡ is_signature_of owner word.now signature.now }
{
    has_owner(owner, signature.owner) && word == signature.name.bytes()
}

/// The function of this class, or of the module, and of this name.
pub fn signature_of(functions: &[Signature], owner: Option<u32>, word: &[u8]) -> Option<usize>
    ensures { result ≡ signature_of functions.now owner word.now }
{
    functions
        .iter()
        .position(|signature| is_signature_of(owner, word, signature))
}

fn base_in(classes: &Classes, class: u32) -> Option<u32>
    ensures { result ≡ base_in classes.now.list class }
{
    match classes.list.as_slice().get(class as usize) {
        Some(found) => found.base,
        None => None,
    }
}

/// The class above this one.
pub fn base_of(classes: &Classes, owner: Option<u32>) -> Option<u32>
    ensures { result ≡ base_of classes.now owner }
{
    match owner {
        Some(class) => base_in(classes, class),
        None => None,
    }
}

/// The method of a name in a class, if any, or the nearest class above it.
#[tactic(auto, using(crate::proofs::Chains::looked_on))]
pub fn method_of(
    classes: &Classes,
    functions: &[Signature],
    start: Option<u32>,
    word: &[u8],
) -> Option<usize>
    ensures { result ≡ method_of classes.now functions.now start word.now }
{
    let mut class = start;
    let mut left = classes.list.len();
    'bases: while left > 0 {
        let k = class?;
        if let Some(method) = signature_of(functions, Some(k), word) {
            return Some(method);
        }
        class = base_in(classes, k);
        left -= 1;
    }
    None
}

fn declared_meaning(classes: &Classes, functions: &[Signature], word: &[u8]) -> Meaning
    requires { length classes.now.list < 2 ^ 32 }
    ensures { result ≡ declared_meaning classes.now functions.now word.now }
{
    if let Some(meaning) = built_in_meaning(word) {
        return meaning;
    }
    if let Some(function) = signature_of(functions, None, word) {
        return Meaning::Function(function);
    }
    match class_named(classes, word) {
        Some(class) => Meaning::Class(class),
        None => Meaning::Nothing,
    }
}

/// What a name means where it is called or named.
pub fn name_meaning(
    classes: &Classes,
    functions: &[Signature],
    scope: &Scope,
    word: &[u8],
) -> Meaning
    requires { length classes.now.list < 2 ^ 32 }
    ensures { result ≡ name_meaning classes.now functions.now scope.now word.now }
{
    if is_hidden(scope, word) {
        return Meaning::Nothing;
    }
    declared_meaning(classes, functions, word)
}

fn lock_meaning(class: u32, word: &[u8]) -> Option<Meaning>
    ensures { result ≡ lock_meaning class word.now }
{
    if word == b"get_locked".as_slice() {
        return Some(Meaning::GetLocked(class));
    }
    if word == b"acquire".as_slice() {
        return Some(Meaning::Acquire);
    }
    if word == b"release".as_slice() {
        return Some(Meaning::Release);
    }
    None
}

fn thread_meaning(word: &[u8]) -> Option<Meaning>
    ensures { result ≡ thread_meaning word.now }
{
    if word == b"start".as_slice() {
        return Some(Meaning::Start);
    }
    if word == b"join".as_slice() {
        return Some(Meaning::Join);
    }
    None
}

fn own_lock_meaning(locked: Option<u32>, word: &[u8]) -> Option<Meaning>
    ensures { result ≡ own_lock_meaning locked word.now }
{
    match locked {
        Some(class) => lock_meaning(class, word),
        None => None,
    }
}

fn object_meaning(
    classes: &Classes,
    functions: &[Signature],
    class: u32,
    word: &[u8],
) -> Option<Meaning>
    ensures { result ≡ object_meaning classes.now functions.now class word.now }
{
    if let Some(meaning) = own_lock_meaning(locked_by(classes, class), word) {
        return Some(meaning);
    }
    match method_of(classes, functions, Some(class), word) {
        Some(method) => Some(Meaning::Method(method)),
        None => None,
    }
}

/// What a method's name means behind a receiver of this type.
pub fn method_meaning(
    classes: &Classes,
    functions: &[Signature],
    ty: Ty,
    word: &[u8],
) -> Option<Meaning>
    ensures { result ≡ method_meaning classes.now functions.now ty word.now }
{
    match ty {
        Ty::Thr => thread_meaning(word),
        Ty::Obj(class) => object_meaning(classes, functions, class, word),
        Ty::Opt(class) => object_meaning(classes, functions, class, word),
        _ => None,
    }
}

/// What a name means as the name of an argument.
pub fn label_meaning(word: &[u8]) -> Meaning
    ensures { result ≡ label_meaning word.now }
{
    if word == b"target".as_slice() {
        return Meaning::Label(Label::Target);
    }
    if word == b"args".as_slice() {
        return Meaning::Label(Label::Arguments);
    }
    if word == b"level".as_slice() {
        return Meaning::Label(Label::Level);
    }
    Meaning::Nothing
}
