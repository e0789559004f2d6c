// The functions of a text, and the names of a method.
use py_base::Text;
use py_syntax::Ty;
use sqlite_items::Items;

/// What a function is for, by its decorators.
#[derive(Clone, Copy, Debug, PartialEq, Eq)]
pub enum FunctionSort {
    /// A function or method of code.
    Code,
    /// A predicate.
    Predicate,
    /// A pure function.
    Pure,
}

/// How a function is called: its class where it is a method, the types of its parameters without `self`, and of its
/// result. What is annotated with no type has none.
#[derive(Debug, Drop)]
pub struct Signature {
    pub name: Text,
    pub owner: Option<u32>,
    pub sort: FunctionSort,
    pub parameters: Items<Option<Ty>>,
    pub result: Option<Ty>,
}

/// A parameter or local, with its type where it has one.
#[derive(Debug, Drop)]
pub struct Variable {
    pub name: Text,
    pub ty: Option<Ty>,
}

/// A local of a method with its type, that of None where it has none.
#[derive(Debug, Drop)]
pub struct Local {
    pub name: Text,
    pub ty: Ty,
}

/// The parameters and locals of a method, its class, and the type of its result.
#[derive(Debug, Drop)]
pub struct Scope {
    pub variables: Items<Variable>,
    pub owner: Option<u32>,
    pub result: Option<Ty>,
}
