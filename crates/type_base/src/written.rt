// The types that a text writes.
ghost use Rattle.std.specs.Prelude.{◌≡◌, ◌<◌, ◌^◌, length, position, IfSome};
ghost use Rattle.type_base.specs.Types.{is_called, class_is_called, class_named, sort_is_exception, is_exception, sort_locks, locked_by, object_class, exception_class, type_named, type_within, ty_of, result_of};

use class_table::Classes;
use py_base::Text;
use py_syntax::{ClassSort, Ty};
use raw_syntax::RawTy;

/// Whether the name of this number is the one given.
pub fn is_called(names: &[Text], name: &[u8], number: u32) -> bool
    ensures { result ≡ is_called names.now name.now number }
{
    match names.get(number as usize) {
        Some(known) => name == known.bytes(),
        None => false,
    }
}

fn class_position(classes: &Classes, name: &[u8]) -> Option<usize>
    ensures at { result ≡ position (class_is_called classes.now.names name.now) classes.now.list }
    ensures within { IfSome result (λ at. at < length classes.now.list) }
{
    let names = classes.names.as_slice();
    classes
        .list
        .as_slice()
        .iter()
        .position(|class| is_called(names, name, class.name))
}

/// The class that a name means.
pub fn class_named(classes: &Classes, name: &[u8]) -> Option<u32>
    requires { length classes.now.list < 2 ^ 32 }
    ensures { result ≡ class_named classes.now name.now }
{
    match class_position(classes, name) {
        Some(at) => Some(at as u32),
        None => None,
    }
}

fn sort_is_exception(sort: ClassSort) -> bool
    ensures { result ≡ sort_is_exception sort }
{
    match sort {
        ClassSort::Exc => true,
        _ => false,
    }
}

/// Whether the class is one of exceptions.
pub fn is_exception(classes: &Classes, class: u32) -> bool
    ensures { result ≡ is_exception classes.now class }
{
    match classes.list.as_slice().get(class as usize) {
        Some(found) => sort_is_exception(found.sort),
        None => false,
    }
}

fn sort_locks(sort: ClassSort) -> Option<u32>
    ensures { result ≡ sort_locks sort }
{
    match sort {
        ClassSort::LockOver(locked, _) => Some(locked),
        _ => None,
    }
}

/// The class that a class of locks locks.
pub fn locked_by(classes: &Classes, class: u32) -> Option<u32>
    ensures { result ≡ locked_by classes.now class }
{
    match classes.list.as_slice().get(class as usize) {
        Some(found) => sort_locks(found.sort),
        None => None,
    }
}

/// The class of this name, where it isn't one of exceptions.
pub fn object_class(classes: &Classes, name: &[u8]) -> Option<u32>
    requires { length classes.now.list < 2 ^ 32 }
    ensures { result ≡ object_class classes.now name.now }
{
    let class = class_named(classes, name)?;
    if is_exception(classes, class) {
        return None;
    }
    Some(class)
}

/// The class of exceptions of this name.
pub fn exception_class(classes: &Classes, name: &[u8]) -> Option<u32>
    requires { length classes.now.list < 2 ^ 32 }
    ensures { result ≡ exception_class classes.now name.now }
{
    let class = class_named(classes, name)?;
    if is_exception(classes, class) {
        return Some(class);
    }
    None
}

fn type_named(classes: &Classes, name: &[u8]) -> Option<Ty>
    requires { length classes.now.list < 2 ^ 32 }
    ensures { result ≡ type_named classes.now name.now }
{
    if name == b"int".as_slice() {
        return Some(Ty::Int);
    }
    if name == b"bool".as_slice() {
        return Some(Ty::Bool);
    }
    if name == b"Thread".as_slice() {
        return Some(Ty::Thr);
    }
    match object_class(classes, name) {
        Some(class) => Some(Ty::Obj(class)),
        None => None,
    }
}

fn type_within(classes: &Classes, name: &[u8], inner: &[u8]) -> Option<Ty>
    requires { length classes.now.list < 2 ^ 32 }
    ensures { result ≡ type_within classes.now name.now inner.now }
{
    if name != b"Optional".as_slice() {
        return None;
    }
    match object_class(classes, inner) {
        Some(class) => Some(Ty::Opt(class)),
        None => None,
    }
}

/// The type of values that an annotation means.
pub fn ty_of(classes: &Classes, ty: &RawTy) -> Option<Ty>
    requires { length classes.now.list < 2 ^ 32 }
    ensures { result ≡ ty_of classes.now ty.now }
{
    match &ty.inner {
        Some(inner) => type_within(classes, ty.head.bytes(), inner.bytes()),
        None => type_named(classes, ty.head.bytes()),
    }
}

/// The type of a result, which is `Void` for `None`.
pub fn result_of(classes: &Classes, ty: &RawTy) -> Option<Ty>
    requires { length classes.now.list < 2 ^ 32 }
    ensures { result ≡ result_of classes.now ty.now }
{
    match &ty.inner {
        Some(inner) => type_within(classes, ty.head.bytes(), inner.bytes()),
        None => {
            if ty.head.bytes() == b"None".as_slice() {
                return Some(Ty::Void);
            }
            type_named(classes, ty.head.bytes())
        }
    }
}
