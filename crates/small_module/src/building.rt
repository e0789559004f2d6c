// The module of `main` alone.
ghost use Rattle.std.specs.Prelude.{◌≡◌, ◌≤◌, IfOk, codes, ◌∷◌, [], List, ℕ, replicate};
ghost use Rattle.py_syntax.specs.declared.Ty.TheVariants.{Int};
ghost use Rattle.small_module.specs.SmallModule.{exception_class, main_method, main_module, head_fault, parameters_fault, main_of, item_place, module_of};

use crate::body::body_of;
use crate::lists::split;
use py_base::{OutOfMemory, Place, Text};
use py_syntax::{Class, ClassSort, Method, Module, Stmt, Ty};
use raw_syntax::{Raw, RawFunc, RawItem, RawParam, RawTy};
use sqlite_items::Items;
use std::alloc::Global;

fn names(alloc: Global) -> Result<Items<Text>, OutOfMemory>
    ensures { IfOk result (λ names. names ≡ codes "Exception" ∷ codes "main" ∷ []) }
{
    let mut names = Items::new(alloc);
    names.push(Text::of(b"Exception".to_vec(alloc)?))?;
    names.push(Text::of(b"main".to_vec(alloc)?))?;
    Ok(names)
}

fn exception_class(alloc: Global) -> Class
    ensures { result ≡ exception_class }
{
    Class {
        name: 0,
        place: Place { line: 1, col: 1 },
        base: None,
        sort: ClassSort::Exc,
        fields: Items::new(alloc),
        methods: Items::new(alloc),
    }
}

// The types of so many locals.
fn ints(alloc: Global, count: usize) -> Result<Items<Ty>, OutOfMemory>
    ensures { IfOk result (λ types. types ≡ replicate count Int) }
{
    Ok(Items::from_vec(vec![in alloc; Ty::Int; count]?))
}

fn main_method(alloc: Global, place: Place, locals: Items<Ty>, body: Items<Stmt>) -> Method
    ensures { (count : ℕ) → locals ≡ replicate count Int → result ≡ main_method place count body }
{
    Method {
        name: 1,
        place,
        owner: None,
        params: Items::new(alloc),
        locals,
        ret: Ty::Void,
        pre: Items::new(alloc),
        post: Items::new(alloc),
        exits: Items::new(alloc),
        makes: 0,
        body,
    }
}

// The module of a `main` at this place, with so many locals, up to the place of the end.
fn main_module(
    alloc: Global,
    place: Place,
    locals: usize,
    body: Items<Stmt>,
    end: Place,
) -> Result<Module, OutOfMemory>
    ensures { IfOk result (λ m. m ≡ main_module place locals body end) }
{
    let locals = ints(alloc, locals)?;
    let mut classes = Items::new(alloc);
    classes.push(exception_class(alloc))?;
    let mut methods = Items::new(alloc);
    methods.push(main_method(alloc, place, locals, body))?;
    Ok(Module {
        names: names(alloc)?,
        classes,
        methods,
        predicates: Items::new(alloc),
        main: 0,
        end,
    })
}

fn parameters_fault(params: &[RawParam], ret: &RawTy) -> Option<Place>
    ensures { result ≡ parameters_fault params.now ret.now }
{
    if let Some((first, _)) = split(params) {
        return Some(first.place);
    }
    if ret.head.bytes() != b"None".as_slice() {
        return Some(ret.place);
    }
    match ret.inner {
        None => None,
        Some(_) => Some(ret.place),
    }
}

// The place of the first part of a function's head that isn't that of a small `main`.
fn head_fault(function: &RawFunc) -> Option<Place>
    ensures { result ≡ head_fault function.now }
{
    if function.name.bytes() != b"main".as_slice() {
        return Some(function.place);
    }
    match split(function.marks.as_slice()) {
        None => parameters_fault(function.params.as_slice(), &function.ret),
        Some(_) => Some(function.place),
    }
}

// The module of the function, or the place of its first part that isn't built.
fn main_of(
    alloc: Global,
    function: &RawFunc,
    end: Place,
) -> Result<Result<Module, Place>, OutOfMemory>
    ensures { IfOk result (λ m. m ≡ main_of function.now end) }
{
    if let Some(place) = head_fault(function) {
        return Ok(Err(place));
    }
    match body_of(alloc, function.body.as_slice())? {
        Ok((body, locals)) => Ok(Ok(main_module(alloc, function.place, locals, body, end)?)),
        Err(place) => Ok(Err(place)),
    }
}

fn item_place(item: &RawItem) -> Place
    ensures { result ≡ item_place item.now }
{
    match item {
        RawItem::Class(class) => class.place,
        RawItem::Func(function) => function.place,
    }
}

/// The module that a tree spells, or the place of its first form that isn't built.
pub fn module_of(alloc: Global, tree: &Raw) -> Result<Result<Module, Place>, OutOfMemory>
    ensures { IfOk result (λ m. m ≡ module_of tree.now) }
{
    let Some((first, more)) = split(tree.items.as_slice()) else {
        return Ok(Err(tree.end));
    };
    let function = match first {
        RawItem::Func(function) => function,
        RawItem::Class(class) => return Ok(Err(class.place)),
    };
    let module = match main_of(alloc, function, tree.end)? {
        Ok(module) => module,
        Err(place) => return Ok(Err(place)),
    };
    match split(more) {
        None => Ok(Ok(module)),
        Some((other, _)) => Ok(Err(item_place(other))),
    }
}
