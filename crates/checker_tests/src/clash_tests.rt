// What no clause says: sorted conditions, and clashes of two assumptions.
use proof_checker::*;
use py_base::OutOfMemory;
use sqlite_items::Items;
use std::alloc::Global;
use std::test::Fail;
use terms::{Literal, Term};

// `x1 <= 3`
fn order() -> Literal {
    Literal::AtMost(Term::Sym(1), Term::Lit(3))
}

// `x1 <= None`
fn unsorted() -> Literal {
    Literal::AtMost(Term::Sym(1), Term::Nil)
}

fn held(n: u32) -> Literal {
    Literal::Flag(n, true)
}

fn same(m: u32, n: u32) -> Literal {
    Literal::Same(Term::RefSym(m), Term::RefSym(n))
}

fn apart(m: u32, n: u32) -> Literal {
    Literal::Apart(Term::RefSym(m), Term::RefSym(n))
}

fn condition(alloc: Global, first: Literal, last: Literal) -> Result<Condition, OutOfMemory> {
    let mut hyps = Items::new(alloc);
    hyps.push(first)?;
    Ok(Condition { hyps, goal: last })
}

fn is_clash(c: &Condition, i: u32, j: u32) -> bool {
    check_derivation(c, &Derivation::Clash(i, j))
}

#[test]
fn a_condition_is_sorted_where_each_literal_is(rt: HostRuntime) -> Result<(), Fail> {
    let alloc = rt.alloc();
    let sorted = condition(alloc, order(), order()).map_err(|_| "no condition")?;
    assert!(rt; sorted.is_sorted());
    let first = condition(alloc, unsorted(), order()).map_err(|_| "no condition")?;
    assert!(rt; !first.is_sorted());
    let last = condition(alloc, order(), unsorted()).map_err(|_| "no condition")?;
    assert!(rt; !last.is_sorted());
    Ok(())
}

#[test]
fn opposites_clash(rt: HostRuntime) -> Result<(), Fail> {
    let alloc = rt.alloc();
    let flags = condition(alloc, held(0), held(0)).map_err(|_| "no condition")?;
    let exchanged = condition(alloc, same(1, 2), same(2, 1)).map_err(|_| "no condition")?;
    let none = condition(
        alloc,
        Literal::Same(Term::RefSym(1), Term::Nil),
        Literal::Same(Term::RefSym(1), Term::RefLit(0)),
    );
    let none = none.map_err(|_| "no condition")?;
    let orders = condition(alloc, order(), order()).map_err(|_| "no condition")?;
    for c in [&flags, &exchanged, &none, &orders] {
        assert!(rt; is_clash(c, 0, 1));
        assert!(rt; is_clash(c, 1, 0));
        assert!(rt; !is_clash(c, 0, 0));
        assert!(rt; !is_clash(c, 0, 2));
        assert!(rt; !is_clash(c, 2, 0));
    }
    let others = condition(alloc, same(1, 2), same(1, 3)).map_err(|_| "no condition")?;
    assert!(rt; !is_clash(&others, 0, 1));
    Ok(())
}

#[test]
fn what_is_false_by_itself_clashes(rt: HostRuntime) -> Result<(), Fail> {
    let alloc = rt.alloc();
    let numbers = Literal::Same(Term::RefLit(1), Term::RefLit(2));
    let one_number = Literal::Same(Term::RefLit(1), Term::RefLit(1));
    let none = Literal::Same(Term::RefLit(0), Term::Nil);
    for (l, wanted) in [
        (apart(1, 1), true),
        (apart(1, 2), false),
        (numbers, true),
        (one_number, false),
        (none, false),
    ] {
        let c = condition(alloc, l, held(0)).map_err(|_| "no condition")?;
        assert_eq!(rt; is_clash(&c, 0, 0), wanted);
    }
    Ok(())
}
