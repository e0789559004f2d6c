// Classes of equal terms.
ghost use Rattle.std.specs.Prelude.{◌≡◌, ◌<◌, length, IfOk, OnOk, IfSome, IfNone, ℕ, false};
ghost use Rattle.ref_solver.specs.Classes.{links, class_at, merged, ArePartial, AreSettled, AreClasses, IsPartner};

use crate::collect::alone;
use crate::linked::links;
use py_base::OutOfMemory;
use sqlite_items::Items;
use std::alloc::Global;
use terms::{Literal, Term};

/// The terms of the literals, those within terms too, in classes of those whose equality follows.
pub fn equal_classes(alloc: Global, lits: &[Literal]) -> Result<Items<Items<Term>>, OutOfMemory>
    ensures { IfOk result (λ cs. AreClasses lits.now cs) }
{
    let first = alone(alloc, lits)?;
    settle(lits, first)
}

// Makes classes one as long as two are to be.
fn settle(lits: &[Literal], first: Items<Items<Term>>) -> Result<Items<Items<Term>>, OutOfMemory>
    requires { ArePartial lits.now first }
    ensures partial { IfOk result (λ cs. ArePartial lits.now cs) }
    ensures settled { IfOk result (λ cs. AreSettled lits.now cs) }
{
    let mut classes = first;
    while let Some((i, j)) = pair(lits, classes.as_slice()) {
        merge(&mut classes, i, j)?;
    }
    Ok(classes)
}

// Two classes that are to be one.
fn pair(lits: &[Literal], classes: &[Items<Term>]) -> Option<(usize, usize)>
    ensures there { IfSome result (λ p. p.1 < length classes.now) }
    ensures some { IfSome result (λ p. IsPartner lits.now classes.now p.1 p.0) }
    ensures none { IfNone result (AreSettled lits.now classes.now) }
{
    for j in 0..classes.len() {
        if let Some(i) = partner(lits, classes, j) {
            return Some((i, j));
        }
    }
    None
}

fn partner(lits: &[Literal], classes: &[Items<Term>], j: usize) -> Option<usize>
    requires { j < length classes.now }
    ensures some { IfSome result (λ i. IsPartner lits.now classes.now j i) }
    ensures none { IfNone result ((i : ℕ) → i < j → links lits.now classes.now (class_at classes.now i) (class_at classes.now j) ≡ false) }
{
    for i in 0..j {
        if links(lits, classes, &classes[i], &classes[j]) {
            return Some(i);
        }
    }
    None
}

fn merge(classes: &mut Items<Items<Term>>, i: usize, j: usize) -> Result<(), OutOfMemory>
    requires before { i < j }
    requires there { j < length classes.old }
    ensures { OnOk result (classes.new ≡ merged classes.old i j) }
{
    let last = classes.remove(j);
    let mut class = classes.remove(i);
    class.append(last)?;
    classes.push(class)?;
    Ok(())
}
