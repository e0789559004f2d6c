// What no clause says: sums of rows that are accepted, and refused where one of their conditions fails.
use lin_rows::{ComboStep, Row, Terms};
use proof_checker::*;
use py_base::OutOfMemory;
use sqlite_items::Items;
use std::alloc::Global;
use std::test::Fail;
use terms::{Literal, Term};

/// The condition of the hypothesis `x0 <= 0` with the goal `x0 <= 1`, whose opposite is `1 + 1 <= x0`.
fn condition(alloc: Global) -> Result<Condition, OutOfMemory> {
    let mut hyps = Items::new(alloc);
    hyps.push(Literal::AtMost(Term::Sym(0), Term::Lit(0)))?;
    Ok(Condition {
        hyps,
        goal: Literal::AtMost(Term::Sym(0), Term::Lit(1)),
    })
}

/// Whether the sum of rows 0 and 2, the second one by a multiplier, is accepted with this bound and no terms.
fn combines(alloc: Global, by_right: i128, bound: i128) -> Result<bool, OutOfMemory> {
    let c = condition(alloc)?;
    let mut steps = Items::new(alloc);
    steps.push(ComboStep {
        left: 0,
        right: 2,
        by_left: 1,
        by_right,
        row: Row {
            coefs: Terms::new(alloc),
            bound,
        },
    })?;
    Ok(check_derivation(&c, &Derivation::Combine(steps)))
}

#[test]
fn sums_of_rows_are_exact(rt: HostRuntime) -> Result<(), Fail> {
    let alloc = rt.alloc();
    for (by_right, bound, wanted) in [
        (1, -2, true),
        (1, -3, false),
        (-1, -2, false),
        (0, -2, false),
    ] {
        let answer = combines(alloc, by_right, bound).map_err(|_| "no memory")?;
        assert_eq!(rt; answer, wanted, "{by_right} {bound}");
    }
    Ok(())
}
