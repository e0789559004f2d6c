// Numbers just within 128 bits, and just outside. Each case is a step with the first assumption's row, and then a step that
// refutes the others: row 2 is `x1 <= 0`, row 4 `-x1 <= -1`, and step 8 is the first.
use crate::plans::Fact::{AtMost, Same};
use crate::plans::Plan::Combine;
use crate::plans::Side::{Add, Apply, Times, Units, X};
use crate::plans::{Case, FALSE, Fact, Step, assert_answers};
use std::test::Fail;

const MIN: i128 = i128::MIN;

const MAX: i128 = i128::MAX;

const HALF: i128 = 1 << 126;

const MINUS_HALF: i128 = -1 << 126;

const AT_MOST: Fact = AtMost(X(1), Units(0));

const AT_LEAST: Fact = AtMost(Units(1), X(1));

const REFUTES: Step = Step([2, 4], [1, 1], &[], -1);

static BOUNDS: [Case; 10] = [
    Case {
        shows: "once 2^126",
        hyps: &[AtMost(X(0), Units(HALF)), AT_MOST, AT_LEAST],
        plan: Combine(&[Step([0, 2], [1, 0], &[(0, 1)], HALF), REFUTES]),
        accepted: true,
    },
    Case {
        shows: "twice 2^126 said to be the least number",
        hyps: &[AtMost(X(0), Units(HALF)), AT_MOST, AT_LEAST],
        plan: Combine(&[Step([0, 2], [2, 0], &[(0, 2)], MIN), REFUTES]),
        accepted: false,
    },
    Case {
        shows: "twice 2^126 said to be the greatest number",
        hyps: &[AtMost(X(0), Units(HALF)), AT_MOST, AT_LEAST],
        plan: Combine(&[Step([0, 2], [2, 0], &[(0, 2)], MAX), REFUTES]),
        accepted: false,
    },
    Case {
        shows: "twice -2^126",
        hyps: &[AtMost(X(0), Units(MINUS_HALF)), AT_MOST, AT_LEAST],
        plan: Combine(&[Step([0, 2], [2, 0], &[(0, 2)], MIN), REFUTES]),
        accepted: true,
    },
    Case {
        shows: "three times -2^126 said to be 2^126",
        hyps: &[AtMost(X(0), Units(MINUS_HALF)), AT_MOST, AT_LEAST],
        plan: Combine(&[Step([0, 2], [3, 0], &[(0, 3)], HALF), REFUTES]),
        accepted: false,
    },
    Case {
        shows: "twice 2^126 and twice -1",
        hyps: &[AtMost(X(0), Units(HALF)), AT_MOST, AT_LEAST],
        plan: Combine(&[Step([0, 4], [2, 2], &[(0, 2), (1, -2)], MAX - 1), REFUTES]),
        accepted: false,
    },
    Case {
        shows: "once 2^126 and twice -1",
        hyps: &[AtMost(X(0), Units(HALF)), AT_MOST, AT_LEAST],
        plan: Combine(&[Step([0, 4], [1, 2], &[(0, 1), (1, -2)], HALF - 2), REFUTES]),
        accepted: true,
    },
    Case {
        shows: "2^126 and 2^126 said to be the least number",
        hyps: &[AtMost(X(0), Units(HALF)), AT_MOST, AT_LEAST],
        plan: Combine(&[Step([0, 0], [1, 1], &[(0, 2)], MIN), REFUTES]),
        accepted: false,
    },
    Case {
        shows: "2^126 - 1 and 2^126 - 1",
        hyps: &[AtMost(X(0), Units(HALF - 1)), AT_MOST, AT_LEAST],
        plan: Combine(&[Step([0, 0], [1, 1], &[(0, 2)], MAX - 1), REFUTES]),
        accepted: true,
    },
    Case {
        shows: "-2^126 and -2^126",
        hyps: &[AtMost(X(0), Units(MINUS_HALF)), AT_MOST, AT_LEAST],
        plan: Combine(&[Step([0, 0], [1, 1], &[(0, 2)], MIN), REFUTES]),
        accepted: true,
    },
];

static COEFFICIENTS: [Case; 6] = [
    Case {
        shows: "once 2^126",
        hyps: &[AtMost(Times(HALF, &X(0)), Units(0)), AT_MOST, AT_LEAST],
        plan: Combine(&[Step([0, 2], [1, 0], &[(0, HALF)], 0), REFUTES]),
        accepted: true,
    },
    Case {
        shows: "twice 2^126 said to be the least number",
        hyps: &[AtMost(Times(HALF, &X(0)), Units(0)), AT_MOST, AT_LEAST],
        plan: Combine(&[Step([0, 2], [2, 0], &[(0, MIN)], 0), REFUTES]),
        accepted: false,
    },
    Case {
        shows: "twice -2^126",
        hyps: &[
            AtMost(Times(MINUS_HALF, &X(0)), Units(0)),
            AT_MOST,
            AT_LEAST,
        ],
        plan: Combine(&[Step([0, 2], [2, 0], &[(0, MIN)], 0), REFUTES]),
        accepted: true,
    },
    Case {
        shows: "three times -2^126 said to be 2^126",
        hyps: &[
            AtMost(Times(MINUS_HALF, &X(0)), Units(0)),
            AT_MOST,
            AT_LEAST,
        ],
        plan: Combine(&[Step([0, 2], [3, 0], &[(0, HALF)], 0), REFUTES]),
        accepted: false,
    },
    Case {
        shows: "2^126 and 2^126 said to be the least number",
        hyps: &[AtMost(Times(HALF, &X(0)), Units(0)), AT_MOST, AT_LEAST],
        plan: Combine(&[Step([0, 0], [1, 1], &[(0, MIN)], 0), REFUTES]),
        accepted: false,
    },
    Case {
        shows: "-2^126 and -2^126",
        hyps: &[
            AtMost(Times(MINUS_HALF, &X(0)), Units(0)),
            AT_MOST,
            AT_LEAST,
        ],
        plan: Combine(&[Step([0, 0], [1, 1], &[(0, MIN)], 0), REFUTES]),
        accepted: true,
    },
];

static ASSUMPTIONS: [Case; 11] = [
    Case {
        shows: "the greatest bound",
        hyps: &[AtMost(Units(MIN + 1), X(0)), AT_MOST, AT_LEAST],
        plan: Combine(&[Step([0, 2], [1, 0], &[(0, -1)], MAX), REFUTES]),
        accepted: true,
    },
    Case {
        shows: "a greater bound said to be the least",
        hyps: &[AtMost(Units(MIN), X(0)), AT_MOST, AT_LEAST],
        plan: Combine(&[Step([0, 2], [1, 0], &[(0, -1)], MIN), REFUTES]),
        accepted: false,
    },
    Case {
        shows: "a greater bound said to be the greatest",
        hyps: &[AtMost(Units(MIN), X(0)), AT_MOST, AT_LEAST],
        plan: Combine(&[Step([0, 2], [1, 0], &[(0, -1)], MAX), REFUTES]),
        accepted: false,
    },
    Case {
        shows: "a greater bound that isn't used",
        hyps: &[AtMost(Units(MIN), X(0)), AT_MOST, AT_LEAST],
        plan: Combine(&[Step([2, 4], [1, 1], &[], -1)]),
        accepted: true,
    },
    Case {
        shows: "the greatest coefficient",
        hyps: &[
            AtMost(Times(MAX, &X(0)), Times(0, &X(0))),
            AT_MOST,
            AT_LEAST,
        ],
        plan: Combine(&[Step([0, 2], [1, 0], &[(0, MAX)], 0), REFUTES]),
        accepted: true,
    },
    Case {
        shows: "a greater coefficient said to be the least",
        hyps: &[
            AtMost(Times(MAX, &X(0)), Times(-1, &X(0))),
            AT_MOST,
            AT_LEAST,
        ],
        plan: Combine(&[Step([0, 2], [1, 0], &[(0, MIN)], 0), REFUTES]),
        accepted: false,
    },
    Case {
        shows: "a greater coefficient of another symbol",
        hyps: &[
            AtMost(Add(&X(0), &Times(MAX, &X(2))), Times(-1, &X(2))),
            AT_MOST,
            AT_LEAST,
        ],
        plan: Combine(&[Step([0, 2], [1, 0], &[(0, 1), (2, MIN)], 0), REFUTES]),
        accepted: false,
    },
    Case {
        shows: "the greatest coefficient of another symbol",
        hyps: &[
            AtMost(Add(&X(0), &Times(MAX, &X(2))), Times(0, &X(2))),
            AT_MOST,
            AT_LEAST,
        ],
        plan: Combine(&[Step([0, 2], [1, 0], &[(0, 1), (2, MAX)], 0), REFUTES]),
        accepted: true,
    },
    Case {
        shows: "the first row of an equality",
        hyps: &[Same(X(0), Units(MIN)), AT_MOST, AT_LEAST],
        plan: Combine(&[Step([0, 2], [1, 0], &[(0, 1)], MIN), REFUTES]),
        accepted: true,
    },
    Case {
        shows: "the second row of an equality, which is outside",
        hyps: &[Same(X(0), Units(MIN)), AT_MOST, AT_LEAST],
        plan: Combine(&[Step([1, 2], [1, 0], &[(0, -1)], MIN), REFUTES]),
        accepted: false,
    },
    Case {
        shows: "the second row of an equality, which is within",
        hyps: &[Same(X(0), Units(MIN + 1)), AT_MOST, AT_LEAST],
        plan: Combine(&[Step([1, 2], [1, 0], &[(0, -1)], MAX), REFUTES]),
        accepted: true,
    },
];

static TERMS: [Case; 9] = [
    Case {
        shows: "a sum that is the greatest number",
        hyps: &[AtMost(Add(&Units(MAX), &Units(0)), X(0)), AT_MOST, AT_LEAST],
        plan: Combine(&[Step([0, 2], [1, 0], &[(0, -1)], MIN + 1), REFUTES]),
        accepted: true,
    },
    Case {
        shows: "a greater sum, the bound within",
        hyps: &[AtMost(Add(&Units(MAX), &Units(1)), X(0)), AT_MOST, AT_LEAST],
        plan: Combine(&[Step([0, 2], [1, 0], &[(0, -1)], MIN), REFUTES]),
        accepted: false,
    },
    Case {
        shows: "a sum within a sum",
        hyps: &[
            AtMost(Add(&Add(&Units(MAX), &Units(0)), &Units(-1)), X(0)),
            AT_MOST,
            AT_LEAST,
        ],
        plan: Combine(&[Step([0, 2], [1, 0], &[(0, -1)], MIN + 2), REFUTES]),
        accepted: true,
    },
    Case {
        shows: "a greater sum within a sum",
        hyps: &[
            AtMost(Add(&Add(&Units(MAX), &Units(1)), &Units(-1)), X(0)),
            AT_MOST,
            AT_LEAST,
        ],
        plan: Combine(&[Step([0, 2], [1, 0], &[(0, -1)], MIN + 1), REFUTES]),
        accepted: false,
    },
    Case {
        shows: "the same numbers in another order",
        hyps: &[
            AtMost(Add(&Units(MAX), &Add(&Units(1), &Units(-1))), X(0)),
            AT_MOST,
            AT_LEAST,
        ],
        plan: Combine(&[Step([0, 2], [1, 0], &[(0, -1)], MIN + 1), REFUTES]),
        accepted: true,
    },
    Case {
        shows: "no times a greater sum",
        hyps: &[
            AtMost(Times(0, &Add(&Units(MAX), &Units(1))), X(0)),
            AT_MOST,
            AT_LEAST,
        ],
        plan: Combine(&[Step([0, 2], [1, 0], &[(0, -1)], 0), REFUTES]),
        accepted: false,
    },
    Case {
        shows: "the greatest operand",
        hyps: &[
            AtMost(Apply(1, &[Add(&Units(MAX), &Units(0)), X(0)]), Units(0)),
            AT_MOST,
            AT_LEAST,
        ],
        plan: Combine(&[Step([0, 2], [1, 0], &[(0, 1)], 0), REFUTES]),
        accepted: true,
    },
    Case {
        shows: "a greater operand",
        hyps: &[
            AtMost(Apply(1, &[Add(&Units(MAX), &Units(1)), X(0)]), Units(0)),
            AT_MOST,
            AT_LEAST,
        ],
        plan: Combine(&[Step([0, 2], [1, 0], &[(0, 1)], 0), REFUTES]),
        accepted: false,
    },
    Case {
        shows: "a lower sum at the right",
        hyps: &[
            AtMost(X(0), Add(&Units(MIN), &Units(-1))),
            AT_MOST,
            AT_LEAST,
        ],
        plan: Combine(&[Step([0, 2], [1, 0], &[(0, 1)], MIN), REFUTES]),
        accepted: false,
    },
];

#[test]
fn sums_of_bounds_are_within_128_bits(rt: HostRuntime) -> Result<(), Fail> {
    assert_answers(&rt, rt.alloc(), &FALSE, BOUNDS.as_slice())
}

#[test]
fn sums_of_coefficients_are_within_128_bits(rt: HostRuntime) -> Result<(), Fail> {
    assert_answers(&rt, rt.alloc(), &FALSE, COEFFICIENTS.as_slice())
}

#[test]
fn rows_of_assumptions_are_within_128_bits(rt: HostRuntime) -> Result<(), Fail> {
    assert_answers(&rt, rt.alloc(), &FALSE, ASSUMPTIONS.as_slice())
}

#[test]
fn so_are_the_terms_of_assumptions(rt: HostRuntime) -> Result<(), Fail> {
    assert_answers(&rt, rt.alloc(), &FALSE, TERMS.as_slice())
}
