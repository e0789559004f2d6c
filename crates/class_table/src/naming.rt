// Which class a name means.
ghost use Rattle.std.specs.Prelude.{◌≡◌, ◌<◌, ◌^◌, length, bytes_eq, position, IfSome, IfOk, OnOk, [], ◌∷◌, ◌++◌, flat_map};
ghost use Rattle.class_table.specs.Bases.{class_name, class_names, class_named};

use crate::names::is_built_in;
use name_table::Names;
use py_base::OutOfMemory;
use raw_syntax::RawItem;
use std::alloc::Global;

/// The class that a name means.
pub fn class_named(names: &Names, name: &[u8]) -> Option<u32>
    requires { length names.now < 2 ^ 32 }
    ensures { result ≡ class_named names.now name.now }
{
    if name == b"Exception".as_slice() {
        return Some(0);
    }
    if is_built_in(name) {
        return None;
    }
    match names.position(name) {
        Some(at) => Some(at as u32),
        None => None,
    }
}

fn add_class_name(alloc: Global, names: &mut Names, item: &RawItem) -> Result<(), OutOfMemory>
    ensures { OnOk result (names.new ≡ names.old ++ class_name item.now) }
{
    match item {
        RawItem::Class(class) => names.push(alloc, class.name.bytes())?,
        RawItem::Func(_) => {}
    }
    Ok(())
}

/// The names of the classes, by their numbers.
pub fn class_names(alloc: Global, items: &[RawItem]) -> Result<Names, OutOfMemory>
    ensures { IfOk result (λ names. names ≡ class_names items.now) }
{
    let mut names = Names::new(alloc);
    names.push(alloc, b"Exception")?;
    'items: for item in items {
        add_class_name(alloc, &mut names, item)?;
    }
    Ok(names)
}
