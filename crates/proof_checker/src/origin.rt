// Terms as they stand before anything is put into them.
ghost use Rattle.std.specs.Prelude.{◌≡◌};
ghost use Rattle.terms.specs.declared.Term.{out-Term};
ghost use Rattle.proof_checker.specs.Conditions.{plain};
ghost use Rattle.proof_checker.specs.Views.{origin_term, top_form};

use sqlite_items::Items;
use terms::Term;

/// A term that stands in memory, or one that is made of it.
#[derive(Clone, Copy)]
pub enum Origin<'a> {
    Whole(&'a Term),
    /// The term and one unit.
    PlusOne(&'a Term),
    /// One unit.
    One,
    /// The reference 0.
    Zero,
}

/// The form of a term, with its parts.
#[derive(Clone, Copy)]
pub enum Top<'a> {
    Sym(u32),
    Lit(i128),
    Add(Origin<'a>, Origin<'a>),
    Scale(i128, Origin<'a>),
    App(u16, &'a Items<Term>),
    RefSym(u32),
    RefLit(u32),
    Nil,
}

/// The form of a term that stands in memory.
fn top_of<'a>(t: &'a Term) -> Top<'a>
    ensures { out-Term t.now ≡ top_form result }
{
    match t {
        Term::Sym(n) => Top::Sym(*n),
        Term::Lit(z) => Top::Lit(*z),
        Term::Add(a, b) => Top::Add(Origin::Whole(a.get()), Origin::Whole(b.get())),
        Term::Scale(k, a) => Top::Scale(*k, Origin::Whole(a.get())),
        Term::App(operator, all) => Top::App(*operator, all),
        Term::RefSym(n) => Top::RefSym(*n),
        Term::RefLit(n) => Top::RefLit(*n),
        Term::Nil => Top::Nil,
    }
}

impl<'a> Origin<'a> {
    /// The form of the term.
    pub fn top(self) -> Top<'a>
        ensures { out-Term (origin_term self.entry) ≡ top_form result }
    {
        match self {
            Origin::Whole(t) => top_of(t),
            Origin::PlusOne(t) => Top::Add(Origin::Whole(t), Origin::One),
            Origin::One => Top::Lit(1),
            Origin::Zero => Top::RefLit(0),
        }
    }

    /// The term as a whole side of a literal.
    pub fn side(t: &'a Term) -> Origin<'a>
        ensures { origin_term result ≡ plain t.now }
    {
        match t {
            Term::Nil => Origin::Zero,
            _ => Origin::Whole(t),
        }
    }
}
