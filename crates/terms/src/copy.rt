// Equal copies.
ghost use Rattle.std.specs.Prelude.{◌≡◌, IfOk};

use crate::literal::Literal;
use crate::term::Term;
use py_base::OutOfMemory;
use sqlite_items::{Boxed, Items};
use std::alloc::Global;

impl Term {
    /// An equal term.
    #[cycle(copy_term)]
    pub fn copy(&self, alloc: Global) -> Result<Term, OutOfMemory>
        ensures { IfOk result (λ copy. copy ≡ self.now) }
    {
        match self {
            Self::Sym(n) => Ok(Self::Sym(*n)),
            Self::Lit(z) => Ok(Self::Lit(*z)),
            Self::Add(a, b) => {
                let a = Boxed::new(alloc, a.get().copy(alloc)?)?;
                let b = Boxed::new(alloc, b.get().copy(alloc)?)?;
                Ok(Self::Add(a, b))
            }
            Self::Scale(k, a) => {
                let a = Boxed::new(alloc, a.get().copy(alloc)?)?;
                Ok(Self::Scale(*k, a))
            }
            Self::App(operator, all) => Ok(Self::App(*operator, copy_terms(alloc, all)?)),
            Self::RefSym(n) => Ok(Self::RefSym(*n)),
            Self::RefLit(n) => Ok(Self::RefLit(*n)),
            Self::Nil => Ok(Self::Nil),
        }
    }
}

#[cycle(copy_term)]
fn copy_terms(alloc: Global, all: &Items<Term>) -> Result<Items<Term>, OutOfMemory>
    ensures { IfOk result (λ copy. copy ≡ all.now) }
{
    let mut copy = Items::new(alloc);
    for t in all.as_slice() {
        copy.push(t.copy(alloc)?)?;
    }
    Ok(copy)
}

impl Literal {
    /// An equal literal.
    pub fn copy(&self, alloc: Global) -> Result<Literal, OutOfMemory>
        ensures { IfOk result (λ copy. copy ≡ self.now) }
    {
        match self {
            Self::AtMost(a, b) => copy_pair(alloc, a, b).map(|(a, b)| Self::AtMost(a, b)),
            Self::Same(a, b) => copy_pair(alloc, a, b).map(|(a, b)| Self::Same(a, b)),
            Self::Apart(a, b) => copy_pair(alloc, a, b).map(|(a, b)| Self::Apart(a, b)),
            Self::Flag(n, held) => Ok(Self::Flag(*n, *held)),
        }
    }
}

fn copy_pair(alloc: Global, a: &Term, b: &Term) -> Result<(Term, Term), OutOfMemory>
    ensures { IfOk result (λ copy. copy ≡ (a.now, b.now)) }
{
    let a = a.copy(alloc)?;
    Ok((a, b.copy(alloc)?))
}
