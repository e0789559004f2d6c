// Whether terms and literals are equal.
ghost use Rattle.std.specs.Prelude.{◌≡◌, ◌↔◌, IsTrue};

use crate::literal::Literal;
use crate::term::Term;
use sqlite_items::Items;

impl Term {
    /// Whether the two are one term.
    #[cycle(same)]
    pub fn is_same(&self, other: &Term) -> bool
        ensures { IsTrue result ↔ (self.now ≡ other.now) }
    {
        match (self, other) {
            (Self::Sym(a), Self::Sym(b)) => *a == *b,
            (Self::Lit(a), Self::Lit(b)) => *a == *b,
            (Self::Add(a, b), Self::Add(c, d)) => {
                a.get().is_same(c.get()) && b.get().is_same(d.get())
            }
            (Self::Scale(k, a), Self::Scale(l, b)) => *k == *l && a.get().is_same(b.get()),
            (Self::App(f, a), Self::App(g, b)) => *f == *g && are_same(a, b),
            (Self::RefSym(a), Self::RefSym(b)) => *a == *b,
            (Self::RefLit(a), Self::RefLit(b)) => *a == *b,
            (Self::Nil, Self::Nil) => true,
            _ => false,
        }
    }
}

#[cycle(same)]
fn are_same(a: &Items<Term>, b: &Items<Term>) -> bool
    ensures { IsTrue result ↔ (a.now ≡ b.now) }
{
    if a.len() != b.len() {
        return false;
    }
    let others = b.as_slice();
    for (i, t) in a.as_slice().iter().enumerate() {
        if !t.is_same(&others[i]) {
            return false;
        }
    }
    true
}

impl Literal {
    /// Whether the two are one literal.
    pub fn is_same(&self, other: &Literal) -> bool
        ensures { IsTrue result ↔ (self.now ≡ other.now) }
    {
        match (self, other) {
            (Self::AtMost(a, b), Self::AtMost(c, d)) => a.is_same(c) && b.is_same(d),
            (Self::Same(a, b), Self::Same(c, d)) => a.is_same(c) && b.is_same(d),
            (Self::Apart(a, b), Self::Apart(c, d)) => a.is_same(c) && b.is_same(d),
            (Self::Flag(m, a), Self::Flag(n, b)) => *m == *n && *a == *b,
            _ => false,
        }
    }
}
