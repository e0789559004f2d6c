// The equalities that follow from literals, and where the literals clash.
ghost use Rattle.std.specs.Prelude.{◌≡◌, ◌↔◌, ◌^◌, ◌<◌, length, IsTrue, IfOk};
ghost use Rattle.ref_solver.specs.Classes.{AreTogether};
ghost use Rattle.ref_solver.specs.Clashing.{IsClosure};

use crate::first::first_clash;
use crate::linked::together;
use crate::merging::equal_classes;
use py_base::OutOfMemory;
use sqlite_items::Items;
use std::alloc::Global;
use std::marker::Model;
use terms::{Literal, Term};

/// The equalities of terms that follow from literals, and the first literal with which they clash.
/// Contracts see the classes of equal terms and the place of that literal.
#[derive(Debug, Drop)]
pub struct Closure {
    groups: Items<Items<Term>>,
    place: Option<u32>,
}

impl Model for Closure {
    ghost use Rattle.std.specs.Coded.{codes};
    ghost use Rattle.terms.specs.contracts.Term as term;
    ghost use Rattle.ref_solver.specs.Clashing.{Closed};

    ghost Value = { Closed };

    ghost coded = { Prim.hlevel (codes, term.the_row.coded) };

    ghost view = { λ c. record { classes = c.groups; clash = c.place } };
}

/// The equalities that follow from the literals by equality and congruence, all and only those, and
/// the first literal with which the literals clash.
pub fn close(alloc: Global, lits: &[Literal]) -> Result<Closure, OutOfMemory>
    requires { length lits.now < 2 ^ 32 }
    ensures { IfOk result (λ c. IsClosure lits.now c) }
{
    let groups = equal_classes(alloc, lits)?;
    let place = first_clash(alloc, lits, groups.as_slice())?;
    Ok(Closure { groups, place })
}

impl Closure {
    /// The least n such that the literals up to the one at place n clash, None where they don't clash.
    pub fn clash(&self) -> Option<u32>
        ensures { result ≡ self.now.clash }
    {
        self.place
    }

    /// The classes of equal terms.
    pub fn classes(&self) -> &[Items<Term>]
        ensures { result.now ≡ self.now.classes }
    {
        self.groups.as_slice()
    }

    /// Whether it follows that two terms of the literals are equal.
    pub fn are_equal(&self, s: &Term, t: &Term) -> bool
        ensures { IsTrue result ↔ AreTogether self.now.classes s.now t.now }
    {
        together(self.groups.as_slice(), s, t)
    }
}
