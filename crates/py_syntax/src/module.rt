// Modules, and what they declare.
use crate::assertion::Assertion;
use crate::stmt::Stmt;
use crate::ty::Ty;
use py_base::{Place, Text};
use sqlite_items::Items;

/// A module. `names` begins with `Exception` and goes on with each declared name of a class,
/// method, field, function and predicate, in the order in which the text first has them. Class 0 is
/// `Exception`. `main` is the number of the function `main`, and `end` stands behind the text's last
/// line.
#[derive(Debug, Drop)]
pub struct Module {
    pub names: Items<Text>,
    pub classes: Items<Class>,
    pub methods: Items<Method>,
    pub predicates: Items<Pred>,
    pub main: u32,
    pub end: Place,
}

/// A class, with the fields that its own `__init__` makes and the numbers of its own methods.
#[derive(Debug, Drop)]
pub struct Class {
    pub name: u32,
    pub place: Place,
    pub base: Option<u32>,
    pub sort: ClassSort,
    pub fields: Items<Field>,
    pub methods: Items<u32>,
}

/// What a class is for.
#[derive(Clone, Copy, Debug, PartialEq, Eq)]
pub enum ClassSort {
    /// A class of objects.
    Plain,
    /// A class of exceptions.
    Exc,
    /// A class of locks: the class that is locked, and the predicate that is its invariant.
    LockOver(u32, u32),
}

/// A field.
#[derive(Clone, Copy, Debug, PartialEq, Eq)]
pub struct Field {
    pub name: u32,
    pub ty: Ty,
}

/// A function, or a method of the class `owner`. `exits` has the exceptional postconditions with
/// their classes, and `makes` counts the assignments at the head of `__init__` that make fields.
#[derive(Debug, Drop)]
pub struct Method {
    pub name: u32,
    pub place: Place,
    pub owner: Option<u32>,
    pub params: Items<Ty>,
    pub locals: Items<Ty>,
    pub ret: Ty,
    pub pre: Items<Assertion>,
    pub post: Items<Assertion>,
    pub exits: Items<(u32, Assertion)>,
    pub makes: u32,
    pub body: Items<Stmt>,
}

/// A predicate.
#[derive(Debug, Drop)]
pub struct Pred {
    pub name: u32,
    pub place: Place,
    pub params: Items<Ty>,
    pub body: Assertion,
}
