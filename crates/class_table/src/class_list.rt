// The classes of a text, and the number of `main`.
ghost use Rattle.std.specs.Prelude.{◌≡◌, ◌+◌, ◌++◌, [], ◌∷◌, None, slice_get, IfOk, OnOk};
ghost use Rattle.class_table.specs.Bases.{is_exception};
ghost use Rattle.class_table.specs.ClassList.{has_mark, is_predicate, is_method, one_if, count_from, count_in, numbers_from, field_entry, class_fields, sort_with, class_at, classes_behind, exception_class, is_named_main, main_behind};

use crate::name_list::{as_number, name_number};
use crate::outline::{Declared, Table};
use crate::rows::{base_of, is_exception};
use crate::scope::declared_by;
use name_table::Names;
use py_base::{OutOfMemory, Place};
use py_syntax::{Class, ClassSort, Field};
use raw_syntax::{RawClass, RawFunc, RawItem};
use sqlite_items::Items;
use std::alloc::Global;

fn has_mark(mark: &[u8], f: &RawFunc) -> bool
    ensures { result ≡ has_mark mark.now f.now }
{
    f.marks.as_slice().iter().any(|word| mark == word.bytes())
}

fn is_predicate(f: &RawFunc) -> bool
    ensures { result ≡ is_predicate f.now }
{
    has_mark(b"Predicate", f)
}

fn is_method(f: &RawFunc) -> bool
    ensures { result ≡ is_method f.now }
{
    !is_predicate(f) && !has_mark(b"Pure", f)
}

fn one_if(condition: bool) -> usize
    ensures { result ≡ one_if condition }
{
    if condition {
        return 1;
    }
    0
}

fn sum(a: usize, b: usize) -> Result<usize, OutOfMemory>
    ensures { IfOk result (λ n. n ≡ a + b) }
{
    match a.checked_add(b) {
        Some(n) => Ok(n),
        None => Err(OutOfMemory),
    }
}

fn count_methods(functions: &[RawFunc]) -> Result<usize, OutOfMemory>
    ensures { IfOk result (λ n. n ≡ count_from is_method 0 functions.now) }
{
    let mut count = 0usize;
    'functions: for f in functions {
        count = sum(count, one_if(is_method(f)))?;
    }
    Ok(count)
}

fn count_predicates(functions: &[RawFunc]) -> Result<usize, OutOfMemory>
    ensures { IfOk result (λ n. n ≡ count_from is_predicate 0 functions.now) }
{
    let mut count = 0usize;
    'functions: for f in functions {
        count = sum(count, one_if(is_predicate(f)))?;
    }
    Ok(count)
}

fn numbers_from(alloc: Global, start: usize, count: usize) -> Result<Items<u32>, OutOfMemory>
    ensures { IfOk result (λ numbers. numbers ≡ numbers_from start count) }
{
    let mut numbers = Items::new(alloc);
    let mut next = start;
    let mut left = count;
    'numbers: while left > 0 {
        numbers.push(as_number(next)?)?;
        next = sum(next, 1)?;
        left -= 1;
    }
    Ok(numbers)
}

#[tactic(auto, unfolding(crate::specs::ClassList::field_entry))]
fn add_field(names: &Names, fields: &mut Items<Field>, d: &Declared) -> Result<(), OutOfMemory>
    ensures { OnOk result (fields.new ≡ fields.old ++ field_entry names.now d.now) }
{
    let Some(ty) = d.field else {
        return Ok(());
    };
    let name = name_number(names, d.name.bytes())?;
    fields.push(Field { name, ty })?;
    Ok(())
}

fn fields_of(
    alloc: Global,
    names: &Names,
    declared: &[Declared],
) -> Result<Items<Field>, OutOfMemory>
    ensures { IfOk result (λ fields. fields ≡ class_fields names.now [] declared.now) }
{
    let mut fields = Items::new(alloc);
    'declared: for d in declared {
        add_field(names, &mut fields, d)?;
    }
    Ok(fields)
}

fn plain_sort(is_exc: bool) -> ClassSort
    ensures { result ≡ sort_with is_exc 0 None }
{
    if is_exc {
        return ClassSort::Exc;
    }
    ClassSort::Plain
}

fn sort_of(table: &Table, number: usize, predicates: usize) -> Result<ClassSort, OutOfMemory>
    ensures { IfOk result (λ s. s ≡ sort_with (is_exception table.now.rows number) predicates (slice_get table.now.locks number)) }
{
    let is_exc = is_exception(table.rows.as_slice(), number);
    match table.locks.as_slice().get(number) {
        Some(lock) => match *lock {
            Some(k) => Ok(ClassSort::LockOver(k, as_number(predicates)?)),
            None => Ok(plain_sort(is_exc)),
        },
        None => Ok(plain_sort(is_exc)),
    }
}

fn class_at(
    alloc: Global,
    table: &Table,
    names: &Names,
    number: usize,
    methods: usize,
    predicates: usize,
    class: &RawClass,
) -> Result<Class, OutOfMemory>
    ensures { IfOk result (λ c. c ≡ class_at table.now names.now number methods predicates class.now) }
{
    let own = count_methods(class.members.as_slice())?;
    Ok(Class {
        name: name_number(names, class.name.bytes())?,
        place: class.place,
        base: base_of(table.rows.as_slice(), number),
        sort: sort_of(table, number, predicates)?,
        fields: fields_of(alloc, names, declared_by(table, number))?,
        methods: numbers_from(alloc, methods, own)?,
    })
}

fn exception_class(alloc: Global) -> Class
    ensures { result ≡ exception_class }
{
    Class {
        name: 0,
        place: Place { line: 1, col: 1 },
        base: None,
        sort: ClassSort::Exc,
        fields: Items::new(alloc),
        methods: Items::new(alloc),
    }
}

/// The classes of a text, by their numbers.
pub fn all_classes(
    alloc: Global,
    table: &Table,
    names: &Names,
    items: &[RawItem],
) -> Result<Items<Class>, OutOfMemory>
    ensures { IfOk result (λ list. list ≡ classes_behind table.now names.now 0 0 (exception_class ∷ []) items.now) }
{
    let mut list = Items::new(alloc);
    list.push(exception_class(alloc))?;
    let mut methods = 0usize;
    let mut predicates = 0usize;
    'items: for item in items {
        match item {
            RawItem::Class(class) => {
                let number = list.len();
                let made = class_at(alloc, table, names, number, methods, predicates, class)?;
                list.push(made)?;
                methods = sum(methods, count_methods(class.members.as_slice())?)?;
                predicates = sum(predicates, count_predicates(class.members.as_slice())?)?;
            }
            RawItem::Func(f) => {
                methods = sum(methods, one_if(is_method(f)))?;
                predicates = sum(predicates, one_if(is_predicate(f)))?;
            }
        }
    }
    Ok(list)
}

fn is_named_main(item: &RawItem) -> bool
    ensures { result ≡ is_named_main item.now }
{
    match item {
        RawItem::Class(_) => false,
        RawItem::Func(f) => f.name.bytes() == b"main".as_slice(),
    }
}

fn methods_in(item: &RawItem) -> Result<usize, OutOfMemory>
    ensures { IfOk result (λ n. n ≡ count_in is_method item.now) }
{
    match item {
        RawItem::Class(class) => count_methods(class.members.as_slice()),
        RawItem::Func(f) => Ok(one_if(is_method(f))),
    }
}

/// The number of `main` among the methods.
pub fn main_number(items: &[RawItem]) -> Result<u32, OutOfMemory>
    ensures { IfOk result (λ number. number ≡ main_behind 0 items.now) }
{
    let mut methods = 0usize;
    'items: for item in items {
        if is_named_main(item) {
            return as_number(methods);
        }
        methods = sum(methods, methods_in(item)?)?;
    }
    as_number(methods)
}
