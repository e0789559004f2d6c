// What no clause says: that calls succeed, at numbers near the ends of 128 bits too.
use lin_rows::{Row, RowFault, Terms, combine, eliminate};
use std::alloc::Global;
use std::test::Fail;

const MIN: i128 = i128::MIN;

const MAX: i128 = i128::MAX;

const HALF: i128 = 1 << 126;

// The row of these terms, in any order.
fn row(alloc: Global, terms: &[(u32, i128)], bound: i128) -> Result<Row, RowFault> {
    let mut sum = Row {
        coefs: Terms::new(alloc),
        bound,
    };
    for (var, coef) in terms {
        let mut coefs = Terms::new(alloc);
        if *coef != 0 {
            coefs.push(*var, *coef)?;
        }
        sum = combine(alloc, 1, &sum, 1, &Row { coefs, bound: 0 })?;
    }
    Ok(sum)
}

// The answer of elimination, where the signs are opposite.
fn eliminated(alloc: Global, a: &Row, b: &Row, var: u32) -> Option<Result<Row, RowFault>> {
    if a.coefs.coef(var) > 0 && b.coefs.coef(var) < 0 {
        Some(eliminate(alloc, a, b, var))
    } else {
        None
    }
}

#[test]
fn elimination_cancels_with_the_lowest_multipliers(rt: HostRuntime) -> Result<(), Fail> {
    let alloc = rt.alloc();
    for (a, b, var, terms, bound) in [
        (
            ([(0, 2), (1, 3)], 4),
            ([(0, -4), (1, 1)], 0),
            0,
            [(1, 7)].as_slice(),
            8,
        ),
        (
            ([(0, 6), (1, 1)], 1),
            ([(0, -9), (1, 1)], 1),
            0,
            [(1, 5)].as_slice(),
            5,
        ),
        (
            ([(5, 1), (2, 1)], 1),
            ([(2, -1), (5, -1)], -2),
            5,
            [].as_slice(),
            -1,
        ),
        (
            ([(3, 1), (1, 5)], 0),
            ([(3, -1), (7, 2)], 0),
            3,
            [(1, 5), (7, 2)].as_slice(),
            0,
        ),
        (
            ([(0, MAX), (1, 0)], MAX),
            ([(0, -MAX), (1, 4)], 0),
            0,
            [(1, 4)].as_slice(),
            MAX,
        ),
        (
            ([(0, 1), (1, MIN)], MIN),
            ([(0, -1), (1, 0)], 0),
            0,
            [(1, MIN)].as_slice(),
            MIN,
        ),
        (
            ([(0, HALF), (1, 2)], 1),
            ([(0, -HALF), (1, -1)], 1),
            0,
            [(1, 1)].as_slice(),
            2,
        ),
    ] {
        let left = row(alloc, a.0.as_slice(), a.1).map_err(|_| "no left row")?;
        let right = row(alloc, b.0.as_slice(), b.1).map_err(|_| "no right row")?;
        let answer = eliminated(alloc, &left, &right, var).ok_or("one sign")?;
        let sum = answer.map_err(|_| "no sum")?;
        assert_eq!(rt; sum.coefs.as_slice(), terms, "x{var}");
        assert_eq!(rt; sum.bound, bound, "x{var}");
    }
    Ok(())
}

#[test]
fn elimination_is_wide_where_a_number_leaves_128_bits(rt: HostRuntime) -> Result<(), Fail> {
    let alloc = rt.alloc();
    for (a, b, number) in [
        (
            ([(0, 1), (1, 0)], 0),
            ([(0, MIN), (1, 0)], 0),
            "a multiplier",
        ),
        (
            ([(0, 2), (1, 0)], 0),
            ([(0, MIN), (1, 0)], 0),
            "a product with the variable",
        ),
        (
            ([(0, 3), (1, MAX)], 0),
            ([(0, -2), (1, 0)], 0),
            "a product with a coefficient",
        ),
        (
            ([(0, 3), (1, 1)], 0),
            ([(0, -2), (1, 0)], MIN),
            "a product with a bound",
        ),
        (
            ([(0, 1), (1, MAX)], 0),
            ([(0, -1), (1, 1)], 0),
            "a sum of coefficients",
        ),
        (
            ([(0, 1), (1, 0)], MIN),
            ([(0, -1), (1, 0)], -1),
            "a sum of bounds",
        ),
    ] {
        let left = row(alloc, a.0.as_slice(), a.1).map_err(|_| "no left row")?;
        let right = row(alloc, b.0.as_slice(), b.1).map_err(|_| "no right row")?;
        match eliminated(alloc, &left, &right, 0) {
            Some(Err(fault)) => assert_eq!(rt; fault, RowFault::Wide, "{number}"),
            _ => assert!(rt; false, "{number}"),
        }
    }
    Ok(())
}

#[test]
fn a_copy_is_equal(rt: HostRuntime) -> Result<(), Fail> {
    let alloc = rt.alloc();
    let terms = [(0, 1), (1, MIN), (4, MAX), (5, -7), (9, 2)];
    let row = row(alloc, terms.as_slice(), -3).map_err(|_| "no row")?;
    let copy = row.copy(alloc).map_err(|_| "no memory")?;
    assert_eq!(rt; copy.coefs.as_slice(), terms.as_slice());
    assert_eq!(rt; copy.bound, -3);
    assert_eq!(rt; row.coefs.as_slice(), copy.coefs.as_slice());
    Ok(())
}
