// The chain of bases, and the lookup of methods.
ghost use Rattle.std.specs.Prelude.{◌≡◌, find};
ghost use Rattle.class_table.specs.Lookup.{base_in, is_subclass, has_name, own_method, lookup};

use py_syntax::Class;

fn base_in(classes: &[Class], class: usize) -> Option<u32>
    ensures { result ≡ base_in classes.now class }
{
    match classes.get(class) {
        Some(found) => found.base,
        None => None,
    }
}

/// Whether the class `d` is `c` or stands above it.
pub fn is_subclass(classes: &[Class], c: u32, d: u32) -> bool
    ensures { result ≡ is_subclass classes.now c d }
{
    let mut class = Some(c);
    let mut left = classes.len();
    'bases: while left > 0 {
        let Some(k) = class else {
            return false;
        };
        if d == k {
            return true;
        }
        class = base_in(classes, k as usize);
        left -= 1;
    }
    false
}

fn has_name(names: &[u32], name: u32, method: u32) -> bool
    ensures { result ≡ has_name names.now name method }
{
    match names.get(method as usize) {
        Some(found) => name == *found,
        None => false,
    }
}

fn find_method(names: &[u32], name: u32, methods: &[u32]) -> Option<u32>
    ensures { result ≡ find (has_name names.now name) methods.now }
{
    'methods: for method in methods {
        if has_name(names, name, *method) {
            return Some(*method);
        }
    }
    None
}

fn own_method(classes: &[Class], names: &[u32], name: u32, class: usize) -> Option<u32>
    ensures { result ≡ own_method classes.now names.now name class }
{
    match classes.get(class) {
        Some(found) => find_method(names, name, found.methods.as_slice()),
        None => None,
    }
}

/// The method of a name in a class or the nearest class above it. `names` has the names of the methods by
/// their numbers.
#[tactic(auto, using(crate::proofs::Chains::looked_on))]
pub fn lookup(classes: &[Class], names: &[u32], c: u32, name: u32) -> Option<u32>
    ensures { result ≡ lookup classes.now names.now c name }
{
    let mut class = Some(c);
    let mut left = classes.len();
    'bases: while left > 0 {
        let k = class?;
        if let Some(method) = own_method(classes, names, name, k as usize) {
            return Some(method);
        }
        class = base_in(classes, k as usize);
        left -= 1;
    }
    None
}
