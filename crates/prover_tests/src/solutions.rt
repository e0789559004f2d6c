// What no clause says: which answer comes, and that it comes, at numbers near the ends of 128 bits too.
use lin_rows::{Row, RowFault, Terms, WidePoint, combine};
use lin_solver::*;
use sqlite_items::Items;
use std::alloc::Global;
use std::test::Fail;

const MIN: i128 = i128::MIN;

const MAX: i128 = i128::MAX;

// The row of these terms, in any order.
fn row(alloc: Global, terms: &[(u32, i128)], bound: i128) -> Result<Row, RowFault> {
    let mut sum = Row {
        coefs: Terms::new(alloc),
        bound,
    };
    for (var, coef) in terms {
        let mut coefs = Terms::new(alloc);
        if *coef != 0 {
            coefs.push(*var, *coef)?;
        }
        sum = combine(alloc, 1, &sum, 1, &Row { coefs, bound: 0 })?;
    }
    Ok(sum)
}

// An answer in few numbers.
#[derive(Clone, Copy, Debug, PartialEq, Eq)]
enum Answer {
    // the number of steps and the bound of the last
    Combination(usize, i128),
    // the unit and the values of the first three variables
    Point(i128, [i128; 3]),
    // the variables of wide points
    Pair(u32),
    Bound(u32),
    Other,
}

fn value_of(values: &[(u32, i128)], var: u32) -> i128 {
    for (v, value) in values {
        if *v == var {
            return *value;
        }
    }
    0
}

fn kind_of(solved: &Solved) -> Answer {
    match solved {
        Solved::Combination(steps) => match steps.as_slice() {
            [.., last] => Answer::Combination(steps.len(), last.row.bound),
            [] => Answer::Other,
        },
        Solved::Point(point) => {
            let values = point.values.as_slice();
            let first = [
                value_of(values, 0),
                value_of(values, 1),
                value_of(values, 2),
            ];
            Answer::Point(point.q, first)
        }
        Solved::Wide(WidePoint::Pair(_, _, var)) => Answer::Pair(*var),
        Solved::Wide(WidePoint::Bound(_, _, var)) => Answer::Bound(*var),
        Solved::Wide(_) => Answer::Other,
    }
}

// What comes of these rows, each the coefficients of three variables and a bound.
fn answer_of(alloc: Global, given: &[([i128; 3], i128)]) -> Option<Answer> {
    let mut rows = Items::new(alloc);
    for (coefs, bound) in given {
        let terms = [(0, coefs[0]), (1, coefs[1]), (2, coefs[2])];
        rows.push(row(alloc, terms.as_slice(), *bound).ok()?).ok()?;
    }
    let solved = solve(alloc, rows.as_slice()).ok()?;
    Some(kind_of(&solved))
}

// A row without terms that is always met.
const NONE: ([i128; 3], i128) = ([0, 0, 0], 0);

#[test]
fn rows_are_refuted_or_met(rt: HostRuntime) -> Result<(), Fail> {
    let alloc = rt.alloc();
    assert_eq!(rt;
        answer_of(alloc, [].as_slice()),
        Some(Answer::Point(1, [0, 0, 0]))
    );
    for (name, rows, wanted) in [
        (
            "0 or less, and 1 or more",
            [([1, 0, 0], 0), ([-1, 0, 0], -1), NONE, NONE],
            Answer::Combination(1, -1),
        ),
        (
            "0 or less",
            [([1, 0, 0], 0), NONE, NONE, NONE],
            Answer::Point(1, [0, 0, 0]),
        ),
        (
            "no terms, bound 0",
            [NONE, NONE, NONE, NONE],
            Answer::Point(1, [0, 0, 0]),
        ),
        (
            "no terms, bound -1",
            [([0, 0, 1], 5), ([0, 0, 0], -1), NONE, NONE],
            Answer::Combination(1, -1),
        ),
        (
            "equal rows and their opposite",
            [([-1, 0, 2], 3), ([-1, 0, 2], 3), ([1, 0, -2], -4), NONE],
            Answer::Combination(1, -1),
        ),
        (
            "equal rows",
            [([-1, 0, 2], -3), ([-1, 0, 2], -3), NONE, NONE],
            Answer::Point(1, [3, 0, 0]),
        ),
        (
            "the greatest number and its opposite",
            [([MAX, 0, 0], 0), ([-MAX, 0, 0], -1), NONE, NONE],
            Answer::Combination(1, -1),
        ),
        (
            "the greatest number as a bound too",
            [([MAX, 0, 0], MAX), ([-MAX, 0, 0], -MAX), NONE, NONE],
            Answer::Point(1, [1, 0, 0]),
        ),
        (
            "the least number as a coefficient and a bound",
            [([MIN, 0, 0], MIN), NONE, NONE, NONE],
            Answer::Point(1, [1, 0, 0]),
        ),
        (
            "the least number or less",
            [([1, 0, 0], MIN), NONE, NONE, NONE],
            Answer::Point(1, [MIN, 0, 0]),
        ),
        (
            "a half",
            [([2, 0, 0], 1), ([-2, 0, 0], -1), NONE, NONE],
            Answer::Point(2, [1, 0, 0]),
        ),
        (
            "a half and a third",
            [([-2, 0, 0], -1), ([0, -3, 0], -1), NONE, NONE],
            Answer::Point(6, [3, 2, 0]),
        ),
        (
            "the worst bound from below",
            [([-2, 0, 0], -3), ([-3, 0, 0], -5), ([-1, 0, 0], -1), NONE],
            Answer::Point(3, [5, 0, 0]),
        ),
        (
            "the worst bound from above",
            [([2, 0, 0], -3), ([3, 0, 0], -5), ([1, 0, 0], -1), NONE],
            Answer::Point(3, [-5, 0, 0]),
        ),
        (
            "three variables with all signs",
            [
                ([1, 1, 1], 0),
                ([-1, -1, 1], 0),
                ([1, -1, -1], 0),
                ([-1, 1, -1], -1),
            ],
            Answer::Combination(5, -1),
        ),
        (
            "three variables with all signs, and room",
            [
                ([1, 1, 1], -1),
                ([-1, -1, 1], 0),
                ([1, -1, -1], 0),
                ([-1, 1, -1], 5),
            ],
            Answer::Point(2, [-1, 0, -1]),
        ),
        (
            "fifths between two bounds",
            [([3, -2, 0], -1), ([-3, 2, 1], 2), ([0, -5, 7], -3), NONE],
            Answer::Point(5, [0, 3, 0]),
        ),
    ] {
        assert_eq!(rt; answer_of(alloc, rows.as_slice()), Some(wanted), "{name}");
    }
    Ok(())
}

#[test]
fn numbers_outside_128_bits_are_wide(rt: HostRuntime) -> Result<(), Fail> {
    let alloc = rt.alloc();
    for (name, rows, wanted) in [
        (
            "a multiplier",
            [([MIN, 0, 0], 0), ([1, 0, 0], 0)],
            Answer::Pair(0),
        ),
        (
            "a product with a bound in a sum",
            [([0, 3, 0], 0), ([0, -2, 0], MIN)],
            Answer::Pair(1),
        ),
        (
            "a product of a bound and a unit",
            [([1, 0, 0], MAX), ([0, -3, 0], -1)],
            Answer::Bound(0),
        ),
        (
            "what is left of a bound",
            [([1, -1, 0], MIN), ([0, 1, 0], -1)],
            Answer::Bound(0),
        ),
        (
            "a product of two units",
            [([-MAX, 0, 0], -1), ([0, -3, 0], -1)],
            Answer::Bound(0),
        ),
        (
            "a unit of 2 to the power 127",
            [([MIN, 0, 0], -1), NONE],
            Answer::Bound(0),
        ),
        (
            "a value of 2 to the power 127",
            [([-1, 0, 0], MIN), NONE],
            Answer::Bound(0),
        ),
    ] {
        assert_eq!(rt; answer_of(alloc, rows.as_slice()), Some(wanted), "{name}");
    }
    Ok(())
}

#[test]
fn a_chain_of_a_hundred_differences_is_met_or_closed(rt: HostRuntime) -> Result<(), Fail> {
    let alloc = rt.alloc();
    for (back, wanted) in [
        (100, Answer::Point(1, [-100, -99, -98])),
        (99, Answer::Combination(100, -1)),
    ] {
        let mut rows = Items::new(alloc);
        for var in 0..100_u32 {
            let terms = [(var, 1), (var + 1, -1)];
            rows.push(row(alloc, terms.as_slice(), -1).map_err(|_| "no row")?)?;
        }
        let terms = [(0, -1), (100, 1)];
        rows.push(row(alloc, terms.as_slice(), back).map_err(|_| "no row")?)?;
        let solved = solve(alloc, rows.as_slice()).map_err(|_| "no memory")?;
        assert_eq!(rt; kind_of(&solved), wanted, "{back}");
    }
    Ok(())
}

// Each sum of two of these rows is implied by a row that is there. If such sums were kept, their number
// would be squared with each variable.
#[test]
fn all_differences_of_ten_variables_are_met(rt: HostRuntime) -> Result<(), Fail> {
    let alloc = rt.alloc();
    let mut rows = Items::new(alloc);
    for left in 0..10_u32 {
        for right in 0..10_u32 {
            if left != right {
                let terms = [(left, 1), (right, -1)];
                rows.push(row(alloc, terms.as_slice(), 1).map_err(|_| "no row")?)?;
            }
        }
    }
    let solved = solve(alloc, rows.as_slice()).map_err(|_| "no memory")?;
    assert_eq!(rt; kind_of(&solved), Answer::Point(1, [0, 0, 0]));
    Ok(())
}
