// Control items: what a thread still has to do, one item for each step. `V` is the type of values.
use crate::assertion::Assertion;
use crate::expr::{Expr, Instance};
use crate::stmt::{PrintArg, Stmt};
use py_base::Place;
use sqlite_items::Items;

/// A way out of a block before its end.
#[derive(Clone, Copy, Debug, PartialEq, Eq)]
pub enum Way<V> {
    /// `break`
    Break,
    /// `continue`
    Continue,
    /// An exception of a class, with the place of the `raise` or call in this method that it came from.
    Raise(u32, Place),
    /// `return` with a value, which is None in a method without a result.
    Return(V),
}

/// What a call leaves on the value stack of its caller.
#[derive(Clone, Copy, Debug, PartialEq, Eq)]
pub enum Gives<V> {
    /// The result.
    Result,
    /// The object that was made.
    Made(V),
    /// Nothing, as `super().__init__` does.
    Nothing,
}

/// One step of a thread, or a mark between steps.
#[derive(Debug, Drop)]
pub enum Item<V> {
    /// A mark in front of the first item of `main`, which makes the entry tests.
    Begin,
    /// A mark where a method waits for a call: the call's place, the method whose contract the caller
    /// sees, and what the call gives.
    Called(Place, u32, Gives<V>),
    /// A mark before the statements of a `finally` block, which every way out goes through.
    Finally(Items<Stmt>),
    /// Pushes a number.
    Num(i128),
    /// Pushes a truth value.
    Truth(bool),
    /// Pushes None.
    Nil,
    /// Pushes a parameter or local.
    Load(u32),
    /// Applies a prefix operator.
    Un(Place, u16),
    /// Applies an operator to the two topmost values.
    Bin(Place, u16),
    /// Goes on with the right side of `and` where the left one is true.
    AndThen(Expr),
    /// Goes on with the right side of `or` where the left one is false.
    OrElse(Expr),
    /// Compares the two topmost values in a chain, and where that is true goes on with the further
    /// operands and the operators before them.
    Link(u16, Items<Expr>, Items<u16>),
    /// Reads a field of the topmost object.
    Read(Place, u32),
    /// Reads a field of the topmost object, which stays.
    ReadKept(Place, u32),
    /// Replaces a lock by its object.
    Locked(Place),
    /// Tests that the topmost value isn't None.
    NotNil(Place),
    /// Enters a function with so many arguments.
    Call(Place, u32, u32),
    /// Enters a method of the receiver, by the static class and the name, with so many arguments.
    Send(Place, u32, u32, u32),
    /// Makes an object of a class and enters its `__init__` with so many arguments.
    New(Place, u32, u32),
    /// Enters the `__init__` of the base with so many arguments.
    Super(Place, u32),
    /// Makes a lock of a class over the second value at the level on top.
    NewLock(Place, u32),
    /// Makes a thread of a function, with so many arguments below its level.
    NewThread(Place, u32, u32),
    /// `pass`
    Pass,
    /// Writes the topmost value to a local.
    Store(u32),
    /// Writes the value below the topmost object to its field.
    Write(Place, u32),
    /// Makes a field of the topmost object with the value below it.
    Make(Place, u32),
    /// Writes the topmost value to a field of the object below it.
    WriteBack(Place, u32),
    /// Drops the result of a call.
    Drop,
    /// Prints the topmost values and the literals between them.
    Print(Items<PrintArg>),
    /// Tests that the topmost value is true.
    Check(Place),
    /// `Assert`
    Prove(Place, Assertion),
    /// `Fold`
    Fold(Place, Instance),
    /// `Unfold`
    Unfold(Place, Instance),
    /// Goes on with one of two blocks, by the topmost value.
    If(Items<Stmt>, Items<Stmt>),
    /// The first head of a loop: its invariant, condition and body.
    Head(Place, Items<Assertion>, Expr, Items<Stmt>),
    /// Takes a turn of a loop or leaves it, by the topmost value.
    Turn(Place, Items<Assertion>, Expr, Items<Stmt>),
    /// The head of a loop after a turn.
    Again(Place, Items<Assertion>, Expr, Items<Stmt>),
    /// `break` or `continue`
    Leave(Way<V>),
    /// `raise` of a class.
    Raise(Place, u32),
    /// `return`, with the topmost value or without one.
    Return(bool),
    /// `try`
    Try(Items<Stmt>, Items<(u32, Items<Stmt>)>, Items<Stmt>, Option<Items<Stmt>>),
    /// The end of the body of a `try`, with its handlers and its `else` block.
    TryEnd(Items<(u32, Items<Stmt>)>, Items<Stmt>),
    /// Tries the first of the handlers for an exception of a class from a place.
    Handle(u32, Place, Items<(u32, Items<Stmt>)>),
    /// The end of a `finally` block, with the way out that it holds up.
    FinallyEnd(Option<Way<V>>),
    /// Acquires the topmost lock and goes on with the body of a `with`.
    With(Place, Items<Stmt>),
    /// Releases the lock of a `with`, and then goes on with the way out.
    WithEnd(Place, V, Option<Way<V>>),
    /// `acquire` of the topmost lock.
    Acquire(Place),
    /// `release` of the topmost lock.
    Release(Place),
    /// `start` of the topmost thread with a function.
    Start(Place, u32),
    /// `join` of the topmost thread with a function.
    Join(Place, u32),
    /// Leaves the method with a value, once the last block that is left was a `with`.
    Exit(V),
    /// Leaves the method by an exception of a class from a place.
    Throw(u32, Place),
    /// The end of a method's body without `return`.
    End,
}
