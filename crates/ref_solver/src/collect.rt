// The terms of literals, each in a class of its own.
ghost use Rattle.std.specs.Prelude.{◌≡◌, [], ◌++◌, map, IfOk, OnOk};
ghost use Rattle.std.specs.List.{list_any};
ghost use Rattle.terms.specs.Within.{joined, terms_within};
ghost use Rattle.terms.specs.Fitting.{terms_in, sides_of, within_sides};
ghost use Rattle.ref_solver.specs.Classes.{has, with_term, with_terms};

use crate::linked::has;
use py_base::OutOfMemory;
use sqlite_items::Items;
use std::alloc::Global;
use terms::{Literal, Term};

fn is_there(t: &Term, classes: &[Items<Term>]) -> bool
    ensures { result ≡ list_any (has t.now) classes.now }
{
    classes.iter().any(|class| has(t, class))
}

fn add_alone(alloc: Global, t: &Term, classes: &mut Items<Items<Term>>) -> Result<(), OutOfMemory>
    ensures { OnOk result (classes.new ≡ with_term t.now classes.old) }
{
    if is_there(t, classes.as_slice()) {
        return Ok(());
    }
    let mut class = Items::new(alloc);
    class.push(t.copy(alloc)?)?;
    classes.push(class)?;
    Ok(())
}

#[cycle(add_term)]
fn add_term(t: &Term, alloc: Global, classes: &mut Items<Items<Term>>) -> Result<(), OutOfMemory>
    ensures { OnOk result (classes.new ≡ with_terms (terms_within t.now) classes.old) }
{
    add_alone(alloc, t, classes)?;
    match t {
        Term::Add(a, b) => {
            add_term(a.get(), alloc, classes)?;
            add_term(b.get(), alloc, classes)
        }
        Term::Scale(_, a) => add_term(a.get(), alloc, classes),
        Term::App(_, all) => add_terms(all, alloc, classes),
        Term::Sym(_) => Ok(()),
        Term::Lit(_) => Ok(()),
        Term::RefSym(_) => Ok(()),
        Term::RefLit(_) => Ok(()),
        Term::Nil => Ok(()),
    }
}

#[cycle(add_term)]
fn add_terms(
    all: &Items<Term>,
    alloc: Global,
    classes: &mut Items<Items<Term>>,
) -> Result<(), OutOfMemory>
    ensures { OnOk result (classes.new ≡ with_terms (joined (map terms_within all.now)) classes.old) }
{
    for t in all.as_slice() {
        add_term(t, alloc, classes)?;
    }
    Ok(())
}

fn add_pair(
    alloc: Global,
    a: &Term,
    b: &Term,
    classes: &mut Items<Items<Term>>,
) -> Result<(), OutOfMemory>
    ensures { OnOk result (classes.new ≡ with_terms (terms_within a.now ++ terms_within b.now) classes.old) }
{
    add_term(a, alloc, classes)?;
    add_term(b, alloc, classes)
}

fn add_sides(
    alloc: Global,
    l: &Literal,
    classes: &mut Items<Items<Term>>,
) -> Result<(), OutOfMemory>
    ensures { OnOk result (classes.new ≡ with_terms (within_sides (sides_of l.now)) classes.old) }
{
    match l {
        Literal::AtMost(a, b) => add_pair(alloc, a, b, classes),
        Literal::Same(a, b) => add_pair(alloc, a, b, classes),
        Literal::Apart(a, b) => add_pair(alloc, a, b, classes),
        Literal::Flag(_, _) => Ok(()),
    }
}

/// The terms of the literals, each alone.
pub(crate) fn alone(alloc: Global, lits: &[Literal]) -> Result<Items<Items<Term>>, OutOfMemory>
    ensures { IfOk result (λ cs. cs ≡ with_terms (terms_in lits.now) []) }
{
    let mut classes = Items::new(alloc);
    for l in lits {
        add_sides(alloc, l, &mut classes)?;
    }
    Ok(classes)
}
