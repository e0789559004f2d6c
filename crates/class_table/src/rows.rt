// What each class has from above.
ghost use Rattle.std.specs.Prelude.{◌≡◌, ◌<◌, ◌^◌, ◌++◌, false, length, IfOk, OnOk, option_and_then};
ghost use Rattle.std.specs.List.{list_any};
ghost use Rattle.std.specs.Option.{option_map_or};
ghost use Rattle.class_table.specs.Bases.{named_base, earlier, base_in, base_of, is_exception, has_init, needs_super, is_init, declares_init, row_over, row_of, rows_behind, exception_row, all_rows, object_class, locked_class, lock_of, locks};

use crate::naming::class_named;
use crate::outline::Heritage;
use name_table::Names;
use py_base::OutOfMemory;
use raw_syntax::{RawClass, RawFunc, RawItem, RawTy};
use sqlite_items::Items;
use std::alloc::Global;

/// The class that a base names.
pub fn named_base(names: &Names, ty: &RawTy) -> Option<u32>
    requires { length names.now < 2 ^ 32 }
    ensures { result ≡ named_base names.now ty.now }
{
    match ty.inner {
        None => class_named(names, ty.head.bytes()),
        Some(_) => None,
    }
}

fn earlier(count: usize, class: Option<u32>) -> Option<u32>
    ensures { result ≡ earlier count class }
{
    match class {
        Some(k) => {
            if (k as usize) < count {
                return Some(k);
            }
            None
        }
        None => None,
    }
}

fn base_in(names: &Names, count: usize, base: &Option<RawTy>) -> Option<u32>
    requires { length names.now < 2 ^ 32 }
    ensures { result ≡ base_in names.now count base.now }
{
    match base {
        Some(ty) => earlier(count, named_base(names, ty)),
        None => None,
    }
}

/// The base of a class.
pub fn base_of(rows: &[Heritage], class: usize) -> Option<u32>
    ensures { result ≡ base_of rows.now class }
{
    match rows.get(class) {
        Some(row) => row.base,
        None => None,
    }
}

/// Whether the class is one of exceptions.
pub fn is_exception(rows: &[Heritage], class: usize) -> bool
    ensures { result ≡ is_exception rows.now class }
{
    match rows.get(class) {
        Some(row) => row.is_exception,
        None => false,
    }
}

fn has_init(rows: &[Heritage], class: usize) -> bool
    ensures { result ≡ has_init rows.now class }
{
    match rows.get(class) {
        Some(row) => row.has_init,
        None => false,
    }
}

/// Whether a class above has an `__init__`.
pub fn needs_super(rows: &[Heritage], class: usize) -> bool
    ensures { result ≡ needs_super rows.now class }
{
    match base_of(rows, class) {
        Some(base) => has_init(rows, base as usize),
        None => false,
    }
}

/// Whether the method is named `__init__`.
pub fn is_init(method: &RawFunc) -> bool
    ensures { result ≡ is_init method.now }
{
    method.name.bytes() == b"__init__".as_slice()
}

fn declares_init(class: &RawClass) -> bool
    ensures { result ≡ declares_init class.now }
{
    class
        .members
        .as_slice()
        .iter()
        .any(|method| is_init(method))
}

fn is_over_exception(rows: &[Heritage], base: Option<u32>) -> bool
    ensures { result ≡ option_map_or (is_exception rows.now) base false }
{
    match base {
        Some(class) => is_exception(rows, class as usize),
        None => false,
    }
}

fn is_over_init(rows: &[Heritage], base: Option<u32>) -> bool
    ensures { result ≡ option_map_or (has_init rows.now) base false }
{
    match base {
        Some(class) => has_init(rows, class as usize),
        None => false,
    }
}

fn row_over(rows: &[Heritage], own: bool, base: Option<u32>) -> Heritage
    ensures { result ≡ row_over rows.now own base }
{
    Heritage {
        base,
        is_exception: is_over_exception(rows, base),
        has_init: own || is_over_init(rows, base),
    }
}

fn row_of(names: &Names, rows: &[Heritage], class: &RawClass) -> Heritage
    requires { length names.now < 2 ^ 32 }
    ensures { result ≡ row_of names.now rows.now class.now }
{
    let base = base_in(names, rows.len(), &class.base);
    row_over(rows, declares_init(class), base)
}

/// What each class has from above, by its number.
pub fn all_rows(
    alloc: Global,
    names: &Names,
    items: &[RawItem],
) -> Result<Items<Heritage>, OutOfMemory>
    requires { length names.now < 2 ^ 32 }
    ensures { IfOk result (λ rows. rows ≡ all_rows names.now items.now) }
{
    let mut rows = Items::new(alloc);
    rows.push(Heritage {
        base: None,
        is_exception: true,
        has_init: false,
    })?;
    'items: for item in items {
        match item {
            RawItem::Class(class) => rows.push(row_of(names, rows.as_slice(), class))?,
            RawItem::Func(_) => {}
        }
    }
    Ok(rows)
}

/// The class of objects that a name means.
pub fn object_class(names: &Names, rows: &[Heritage], name: &[u8]) -> Option<u32>
    requires { length names.now < 2 ^ 32 }
    ensures { result ≡ object_class names.now rows.now name.now }
{
    let class = class_named(names, name)?;
    if is_exception(rows, class as usize) {
        return None;
    }
    Some(class)
}

/// The class that a lock class locks, by its base.
pub fn locked_class(names: &Names, rows: &[Heritage], ty: &RawTy) -> Option<u32>
    requires { length names.now < 2 ^ 32 }
    ensures { result ≡ locked_class names.now rows.now ty.now }
{
    if ty.head.bytes() != b"Lock".as_slice() {
        return None;
    }
    match &ty.inner {
        Some(name) => object_class(names, rows, name.bytes()),
        None => None,
    }
}

fn lock_by(names: &Names, rows: &[Heritage], base: &Option<RawTy>) -> Option<u32>
    requires { length names.now < 2 ^ 32 }
    ensures { result ≡ option_and_then (locked_class names.now rows.now) base.now }
{
    match base {
        Some(ty) => locked_class(names, rows, ty),
        None => None,
    }
}

fn add_lock(
    names: &Names,
    rows: &[Heritage],
    locks: &mut Items<Option<u32>>,
    item: &RawItem,
) -> Result<(), OutOfMemory>
    requires { length names.now < 2 ^ 32 }
    ensures { OnOk result (locks.new ≡ locks.old ++ lock_of names.now rows.now item.now) }
{
    match item {
        RawItem::Class(class) => locks.push(lock_by(names, rows, &class.base))?,
        RawItem::Func(_) => {}
    }
    Ok(())
}

/// For each class the class that it locks, where it is a lock class.
pub fn locks(
    alloc: Global,
    names: &Names,
    rows: &[Heritage],
    items: &[RawItem],
) -> Result<Items<Option<u32>>, OutOfMemory>
    requires { length names.now < 2 ^ 32 }
    ensures { IfOk result (λ found. found ≡ locks names.now rows.now items.now) }
{
    let mut found = Items::new(alloc);
    found.push(None)?;
    'items: for item in items {
        add_lock(names, rows, &mut found, item)?;
    }
    Ok(found)
}
