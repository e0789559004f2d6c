// Pairs of references that assumptions compare.
ghost use Rattle.std.specs.Prelude.{◌≡◌};
ghost use Rattle.cond_facts.specs.ReferencePairs.{same_reference, has, victim, put_for, replaced, other_numbers};

/// A reference: a symbol or a number.
#[derive(Clone, Copy, Debug, Drop)]
pub(crate) enum Reference {
    Symbol(u32),
    Number(u32),
}

/// Two references that an assumption compares, and the assumption's number.
#[derive(Clone, Copy, Debug, Drop)]
pub(crate) struct Pair {
    pub place: u32,
    pub left: Reference,
    pub right: Reference,
}

pub(crate) fn same_reference(a: Reference, b: Reference) -> bool
    ensures { result ≡ same_reference a b }
{
    match a {
        Reference::Symbol(m) => match b {
            Reference::Symbol(n) => m == n,
            Reference::Number(_) => false,
        },
        Reference::Number(m) => match b {
            Reference::Symbol(_) => false,
            Reference::Number(n) => m == n,
        },
    }
}

/// Whether a reference is a side of a pair.
pub(crate) fn has(p: Pair, x: Reference) -> bool
    ensures { result ≡ has p x }
{
    same_reference(p.left, x) || same_reference(p.right, x)
}

/// The side of an equality that is replaced: the left one where it is a symbol.
pub(crate) fn victim(e: Pair) -> Reference
    ensures { result ≡ victim e }
{
    match e.left {
        Reference::Symbol(_) => e.left,
        Reference::Number(_) => e.right,
    }
}

/// Whether a pair is of two different numbers.
pub(crate) fn other_numbers(e: Pair) -> bool
    ensures { result ≡ other_numbers e }
{
    match e.left {
        Reference::Symbol(_) => false,
        Reference::Number(m) => match e.right {
            Reference::Symbol(_) => false,
            Reference::Number(n) => !(m == n),
        },
    }
}

fn put_for(from: Reference, to: Reference, x: Reference) -> Reference
    ensures { result ≡ put_for from to x }
{
    if same_reference(x, from) { to } else { x }
}

/// A pair that is assumed at a place once an equality was put into it.
pub(crate) fn replaced(e: Pair, place: u32, p: Pair) -> Pair
    ensures { result ≡ replaced e place p }
{
    if has(p, e.left) {
        Pair {
            place,
            left: put_for(e.left, e.right, p.left),
            right: put_for(e.left, e.right, p.right),
        }
    } else {
        Pair {
            place,
            left: put_for(e.right, e.left, p.left),
            right: put_for(e.right, e.left, p.right),
        }
    }
}
