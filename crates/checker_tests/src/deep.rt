// Derivations that are nested deep.
use crate::plans::{FALSE, HELD, NOT_HELD, condition, split};
use lin_rows::RowFault;
use proof_checker::{Derivation, check_derivation};
use std::alloc::Global;
use std::test::Fail;
use terms::Literal;

/// How deep derivations are nested.
const DEPTH: u32 = 10_000;

/// Splits in each other's first part on a flag of which nothing is known. The second parts end with a clash, and the innermost
/// first part with that of the assumption 0 and this one.
fn nested_splits(alloc: Global, last: u32) -> Result<Derivation, RowFault> {
    let mut d = Derivation::Clash(0, last);
    for _ in 0..DEPTH {
        d = split(alloc, Literal::Flag(7, true), d, Derivation::Clash(0, 1))?;
    }
    Ok(d)
}

/// The same in each other's second part.
fn nested_others(alloc: Global, last: u32) -> Result<Derivation, RowFault> {
    let mut d = Derivation::Clash(0, last);
    for _ in 0..DEPTH {
        d = split(alloc, Literal::Flag(7, true), Derivation::Clash(0, 1), d)?;
    }
    Ok(d)
}

#[test]
fn a_derivation_nested_10000_deep_is_read(rt: HostRuntime) -> Result<(), Fail> {
    let alloc = rt.alloc();
    let c = condition(alloc, [HELD, NOT_HELD].as_slice(), &FALSE)?;
    assert!(rt; check_derivation(&c, &nested_splits(alloc, 1)?));
    assert!(rt; !check_derivation(&c, &nested_splits(alloc, 2)?));
    Ok(())
}

#[test]
fn so_is_one_nested_in_second_parts(rt: HostRuntime) -> Result<(), Fail> {
    let alloc = rt.alloc();
    let c = condition(alloc, [HELD, NOT_HELD].as_slice(), &FALSE)?;
    assert!(rt; check_derivation(&c, &nested_others(alloc, 1)?));
    assert!(rt; !check_derivation(&c, &nested_others(alloc, 2)?));
    Ok(())
}
