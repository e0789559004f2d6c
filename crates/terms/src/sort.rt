// The sorts of terms.
ghost use Rattle.std.specs.Prelude.{◌≡◌, map};
ghost use Rattle.terms.specs.Sorts.{of_numbers, of_references, of_one_sort, sorted, every};

use crate::literal::Literal;
use crate::term::Term;
use sqlite_items::Items;

impl Term {
    /// Whether the term is of numbers.
    #[cycle(sort)]
    pub fn is_of_numbers(&self) -> bool
        ensures { result ≡ of_numbers self.now }
    {
        match self {
            Self::Sym(_) | Self::Lit(_) => true,
            Self::Add(a, b) => a.get().is_of_numbers() && b.get().is_of_numbers(),
            Self::Scale(_, a) => a.get().is_of_numbers(),
            Self::App(_, all) => !all.is_empty() && are_of_numbers(all),
            Self::RefSym(_) | Self::RefLit(_) | Self::Nil => false,
        }
    }

    /// Whether the term is of references.
    pub fn is_of_references(&self) -> bool
        ensures { result ≡ of_references self.now }
    {
        match self {
            Self::RefSym(_) | Self::RefLit(_) | Self::Nil => true,
            _ => false,
        }
    }
}

#[cycle(sort)]
fn are_of_numbers(all: &Items<Term>) -> bool
    ensures { result ≡ every (map of_numbers all.now) }
{
    for t in all.as_slice() {
        if !t.is_of_numbers() {
            return false;
        }
    }
    true
}

impl Literal {
    /// Whether the literal's sides are of the sorts that it compares.
    pub fn is_sorted(&self) -> bool
        ensures { result ≡ sorted self.now }
    {
        match self {
            Self::AtMost(a, b) => a.is_of_numbers() && b.is_of_numbers(),
            Self::Same(a, b) | Self::Apart(a, b) => are_of_one_sort(a, b),
            Self::Flag(_, _) => true,
        }
    }
}

fn are_of_one_sort(a: &Term, b: &Term) -> bool
    ensures { result ≡ of_one_sort a.now b.now }
{
    a.is_of_numbers() && b.is_of_numbers() || a.is_of_references() && b.is_of_references()
}
