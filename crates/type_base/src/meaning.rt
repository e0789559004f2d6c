// What the names of functions, fields and methods mean.
ghost use Rattle.std.specs.Prelude.{◌≡◌, find, option_copied, option_map};
ghost use Rattle.class_table.specs.Lookup.{base_in};
ghost use Rattle.type_base.specs.Members.{function_called, function_named, written_class, method_is_called, own_method, method_from, method_of, method_above, field_is_called, own_field, first_field, field_of};

use crate::written::is_called;
use class_table::Classes;
use py_base::Text;
use py_syntax::{Field, Ty};
use raw_syntax::{RawClass, RawFunc, RawItem};

fn function_called<'a>(item: &'a RawItem, name: &[u8]) -> Option<&'a RawFunc>
    ensures { option_copied result ≡ function_called name.now item.now }
{
    match item {
        RawItem::Class(_) => None,
        RawItem::Func(function) => {
            if name == function.name.bytes() {
                return Some(function);
            }
            None
        }
    }
}

/// The function of the module of this name.
pub fn function_named<'a>(items: &'a [RawItem], name: &[u8]) -> Option<&'a RawFunc>
    ensures { option_copied result ≡ function_named name.now items.now }
{
    'items: for item in items {
        if let Some(function) = function_called(item, name) {
            return Some(function);
        }
    }
    None
}

/// The class of this number as it is written. `Exception`, class 0, isn't written.
pub fn written_class(items: &[RawItem], class: usize) -> Option<&RawClass>
    ensures { option_copied result ≡ written_class items.now class }
{
    let mut number = 1usize;
    'items: for item in items {
        match item {
            RawItem::Class(found) => {
                if class == number {
                    return Some(found);
                }
                number += 1;
            }
            RawItem::Func(_) => {}
        }
    }
    None
}

fn find_method<'a>(members: &'a [RawFunc], name: &[u8]) -> Option<&'a RawFunc>
    ensures { option_copied result ≡ find (method_is_called name.now) members.now }
{
    members.iter().find(|method| name == method.name.bytes())
}

/// The method of this name that the class itself has.
pub fn own_method<'a>(items: &'a [RawItem], name: &[u8], class: usize) -> Option<&'a RawFunc>
    ensures { option_copied result ≡ own_method items.now name.now class }
{
    match written_class(items, class) {
        Some(found) => find_method(found.members.as_slice(), name),
        None => None,
    }
}

/// The base of a class.
pub fn base_of(classes: &Classes, class: usize) -> Option<u32>
    ensures { result ≡ base_in classes.now.list class }
{
    match classes.list.as_slice().get(class) {
        Some(found) => found.base,
        None => None,
    }
}

// The method of a name in this class, if any, or the nearest class above it.
#[tactic(auto, using(crate::proofs::Chains::looked_on))]
fn method_from<'a>(
    classes: &Classes,
    items: &'a [RawItem],
    name: &[u8],
    start: Option<u32>,
) -> Option<&'a RawFunc>
    ensures { option_copied result ≡ method_from classes.now items.now name.now start }
{
    let mut class = start;
    let mut left = classes.list.len();
    'bases: while left > 0 {
        let k = class?;
        if let Some(method) = own_method(items, name, k as usize) {
            return Some(method);
        }
        class = base_of(classes, k as usize);
        left -= 1;
    }
    None
}

/// The method of a name in a class or the nearest class above it.
pub fn method_of<'a>(
    classes: &Classes,
    items: &'a [RawItem],
    class: u32,
    name: &[u8],
) -> Option<&'a RawFunc>
    ensures { option_copied result ≡ method_of classes.now items.now class name.now }
{
    method_from(classes, items, name, Some(class))
}

/// The method of a name in the nearest class above this one that has it.
pub fn method_above<'a>(
    classes: &Classes,
    items: &'a [RawItem],
    class: usize,
    name: &[u8],
) -> Option<&'a RawFunc>
    ensures { option_copied result ≡ method_above classes.now items.now class name.now }
{
    method_from(classes, items, name, base_of(classes, class))
}

fn find_field(names: &[Text], name: &[u8], fields: &[Field]) -> Option<Field>
    ensures { result ≡ find (field_is_called names.now name.now) fields.now }
{
    'fields: for field in fields {
        if is_called(names, name, field.name) {
            return Some(*field);
        }
    }
    None
}

fn own_field(classes: &Classes, name: &[u8], class: usize) -> Option<Field>
    ensures { result ≡ own_field classes.now name.now class }
{
    match classes.list.as_slice().get(class) {
        Some(found) => find_field(classes.names.as_slice(), name, found.fields.as_slice()),
        None => None,
    }
}

#[tactic(auto, using(crate::proofs::Chains::looked_on))]
fn first_field(classes: &Classes, start: u32, name: &[u8]) -> Option<Field>
    ensures { result ≡ first_field classes.now start name.now }
{
    let mut class = Some(start);
    let mut left = classes.list.len();
    'bases: while left > 0 {
        let k = class?;
        if let Some(field) = own_field(classes, name, k as usize) {
            return Some(field);
        }
        class = base_of(classes, k as usize);
        left -= 1;
    }
    None
}

/// The type of the field of a name in a class with its bases. It is `Void` where its annotation is no type.
pub fn field_of(classes: &Classes, class: u32, name: &[u8]) -> Option<Ty>
    ensures { result ≡ field_of classes.now class name.now }
{
    match first_field(classes, class, name) {
        Some(field) => Some(field.ty),
        None => None,
    }
}
