// Modules, classes and functions, as they are written.
use crate::stmt::{RawStmt, RawTy};
use py_base::{Place, Text};
use sqlite_items::Items;

/// A module: its classes and functions, and the place of its end.
#[derive(Debug, Drop)]
pub struct Raw {
    pub items: Items<RawItem>,
    pub end: Place,
}

/// What stands in a module.
#[derive(Debug, Drop)]
pub enum RawItem {
    Class(RawClass),
    Func(RawFunc),
}

/// A class. Its place is its name.
#[derive(Debug, Drop)]
pub struct RawClass {
    pub place: Place,
    pub name: Text,
    pub base: Option<RawTy>,
    pub members: Items<RawFunc>,
}

/// A function or a method. Its place is its name, and `marks` are the names of its decorators.
#[derive(Debug, Drop)]
pub struct RawFunc {
    pub place: Place,
    pub marks: Items<Text>,
    pub name: Text,
    pub params: Items<RawParam>,
    pub ret: RawTy,
    pub body: Items<RawStmt>,
}

/// A parameter, with its type where one is written.
#[derive(Debug, Drop)]
pub struct RawParam {
    pub place: Place,
    pub name: Text,
    pub ty: Option<RawTy>,
}
