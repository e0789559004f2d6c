// Classes by single inheritance.
ghost use Rattle.std.specs.Prelude.{◌≡◌, find};
ghost use Rattle.py_syntax.specs.Classes as chains;

use py_syntax::Module;

/// The base of a class, if it has one.
pub fn base_of(m: &Module, class: u32) -> Option<u32>
    ensures { result ≡ chains.base_of m.now class }
{
    match m.classes.get(class as usize) {
        Some(class) => class.base,
        None => None,
    }
}

/// Whether a class is another one or below it.
#[tactic(auto, using(crate::proofs::Inheritance::base_found, crate::proofs::Inheritance::base_passed, crate::proofs::Inheritance::no_base, crate::proofs::Inheritance::bases_over))]
pub fn is_subclass(m: &Module, class: u32, above: u32) -> bool
    ensures { result ≡ chains.is_subclass m.now class above }
{
    let mut next = Some(class);
    let mut left = m.classes.len();
    while 0 < left {
        match next {
            Some(here) => {
                if here == above {
                    return true;
                }
                next = base_of(m, here);
            }
            None => return false,
        }
        left -= 1;
    }
    false
}

// Whether the method of a number has the name.
fn has_name(m: &Module, name: u32, i: u32) -> bool
    ensures { result ≡ chains.has_name m.now name i }
{
    match m.methods.get(i as usize) {
        Some(method) => method.name == name,
        None => false,
    }
}

fn find_named(m: &Module, name: u32, methods: &[u32]) -> Option<u32>
    ensures { result ≡ find (chains.has_name m.now name) methods.now }
{
    methods.iter().copied().find(|i| has_name(m, name, *i))
}

// The method of a name that a class itself declares.
fn own_method(m: &Module, name: u32, class: u32) -> Option<u32>
    ensures { result ≡ chains.own_method m.now name class }
{
    match m.classes.get(class as usize) {
        Some(class) => find_named(m, name, class.methods.as_slice()),
        None => None,
    }
}

/// The method of a name in a class or the nearest class above it.
#[tactic(auto, using(crate::proofs::Inheritance::method_found, crate::proofs::Inheritance::method_passed, crate::proofs::Inheritance::no_method, crate::proofs::Inheritance::methods_over))]
pub fn lookup(m: &Module, class: u32, name: u32) -> Option<u32>
    ensures { result ≡ chains.lookup m.now class name }
{
    let mut next = Some(class);
    let mut left = m.classes.len();
    while 0 < left {
        match next {
            Some(here) => {
                if let Some(found) = own_method(m, name, here) {
                    return Some(found);
                }
                next = base_of(m, here);
            }
            None => return None,
        }
        left -= 1;
    }
    None
}
