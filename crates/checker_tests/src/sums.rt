// Sums of rows: by which multipliers, of which rows, and what they end with. Assumption i has the rows 2i and 2i + 1, and the
// steps come behind the rows of all assumptions.
use crate::plans::Fact::{Apart, AtMost, Same};
use crate::plans::Plan::{Combine, Replace};
use crate::plans::Side::{Add, Apply, R, Times, Units, X};
use crate::plans::{Case, FALSE, HELD, Step, assert_answers};
use std::test::Fail;

// Of the hypothesis `x0 <= 0` and the opposite `1 + 1 <= x0` of the goal, row 0 is `x0 <= 0` and row 2 `-x0 <= -2`. Step 4 is
// the first.
const WANTED: Step = Step([0, 2], [1, 1], &[], -2);

static LAST_STEPS: [Case; 10] = [
    Case {
        shows: "the sum of both rows",
        hyps: &[AtMost(X(0), Units(0))],
        plan: Combine(&[WANTED]),
        accepted: true,
    },
    Case {
        shows: "by 1 and -1",
        hyps: &[AtMost(X(0), Units(0))],
        plan: Combine(&[Step([0, 2], [1, -1], &[], -2)]),
        accepted: false,
    },
    Case {
        shows: "a bound that is less",
        hyps: &[AtMost(X(0), Units(0))],
        plan: Combine(&[Step([0, 2], [1, 1], &[], -3)]),
        accepted: false,
    },
    Case {
        shows: "a bound that is more",
        hyps: &[AtMost(X(0), Units(0))],
        plan: Combine(&[Step([0, 2], [1, 1], &[], -1)]),
        accepted: false,
    },
    Case {
        shows: "no step",
        hyps: &[AtMost(X(0), Units(0))],
        plan: Combine(&[]),
        accepted: false,
    },
    Case {
        shows: "a last step with a term",
        hyps: &[AtMost(X(0), Units(0))],
        plan: Combine(&[Step([0, 2], [2, 1], &[(0, 1)], -2)]),
        accepted: false,
    },
    Case {
        shows: "a step with a term behind the last",
        hyps: &[AtMost(X(0), Units(0))],
        plan: Combine(&[WANTED, Step([0, 2], [2, 1], &[(0, 1)], -2)]),
        accepted: false,
    },
    Case {
        shows: "a step that uses an earlier one",
        hyps: &[AtMost(X(0), Units(0))],
        plan: Combine(&[
            Step([0, 2], [2, 1], &[(0, 1)], -2),
            Step([2, 4], [1, 1], &[], -4),
        ]),
        accepted: true,
    },
    Case {
        shows: "a step that uses an earlier one twice",
        hyps: &[AtMost(X(0), Units(0))],
        plan: Combine(&[WANTED, Step([4, 4], [1, 1], &[], -4)]),
        accepted: true,
    },
    Case {
        shows: "a last step after one that isn't used",
        hyps: &[AtMost(X(0), Units(0))],
        plan: Combine(&[Step([0, 0], [1, 1], &[(0, 2)], 0), WANTED]),
        accepted: true,
    },
];

// Each is a first step, and then the sum of both rows.
static MULTIPLIERS: [Case; 7] = [
    Case {
        shows: "by 2 and 1",
        hyps: &[AtMost(X(0), Units(0))],
        plan: Combine(&[Step([0, 2], [2, 1], &[(0, 1)], -2), WANTED]),
        accepted: true,
    },
    Case {
        shows: "by 1 and 0",
        hyps: &[AtMost(X(0), Units(0))],
        plan: Combine(&[Step([0, 2], [1, 0], &[(0, 1)], 0), WANTED]),
        accepted: true,
    },
    Case {
        shows: "by 0 and 1",
        hyps: &[AtMost(X(0), Units(0))],
        plan: Combine(&[Step([0, 2], [0, 1], &[(0, -1)], -2), WANTED]),
        accepted: false,
    },
    Case {
        shows: "by 1 and -1, all numbers right",
        hyps: &[AtMost(X(0), Units(0))],
        plan: Combine(&[Step([0, 2], [1, -1], &[(0, 2)], 2), WANTED]),
        accepted: false,
    },
    Case {
        shows: "by -1 and 1, all numbers right",
        hyps: &[AtMost(X(0), Units(0))],
        plan: Combine(&[Step([0, 2], [-1, 1], &[(0, -2)], -2), WANTED]),
        accepted: false,
    },
    Case {
        shows: "by 3 and 2",
        hyps: &[AtMost(X(0), Units(0))],
        plan: Combine(&[Step([0, 2], [3, 2], &[(0, 1)], -4), WANTED]),
        accepted: true,
    },
    Case {
        shows: "the multipliers exchanged",
        hyps: &[AtMost(X(0), Units(0))],
        plan: Combine(&[Step([0, 2], [2, 3], &[(0, 1)], -4), WANTED]),
        accepted: false,
    },
];

// So are these.
static NUMBERS: [Case; 6] = [
    Case {
        shows: "a bound that is less in a step",
        hyps: &[AtMost(X(0), Units(0))],
        plan: Combine(&[Step([0, 2], [2, 1], &[(0, 1)], -3), WANTED]),
        accepted: false,
    },
    Case {
        shows: "a bound that is more in a step",
        hyps: &[AtMost(X(0), Units(0))],
        plan: Combine(&[Step([0, 2], [2, 1], &[(0, 1)], -1), WANTED]),
        accepted: false,
    },
    Case {
        shows: "another coefficient",
        hyps: &[AtMost(X(0), Units(0))],
        plan: Combine(&[Step([0, 2], [2, 1], &[(0, 2)], -2), WANTED]),
        accepted: false,
    },
    Case {
        shows: "another variable",
        hyps: &[AtMost(X(0), Units(0))],
        plan: Combine(&[Step([0, 2], [2, 1], &[(1, 1)], -2), WANTED]),
        accepted: false,
    },
    Case {
        shows: "no term",
        hyps: &[AtMost(X(0), Units(0))],
        plan: Combine(&[Step([0, 2], [2, 1], &[], -2), WANTED]),
        accepted: false,
    },
    Case {
        shows: "a term too many",
        hyps: &[AtMost(X(0), Units(0))],
        plan: Combine(&[Step([0, 2], [2, 1], &[(0, 1), (3, 1)], -2), WANTED]),
        accepted: false,
    },
];

// So are these.
static ROWS: [Case; 8] = [
    Case {
        shows: "one row twice",
        hyps: &[AtMost(X(0), Units(0))],
        plan: Combine(&[Step([0, 0], [1, 1], &[(0, 2)], 0), WANTED]),
        accepted: true,
    },
    Case {
        shows: "the second row of an order at the left",
        hyps: &[AtMost(X(0), Units(0))],
        plan: Combine(&[Step([1, 2], [1, 1], &[(0, -2)], -2), WANTED]),
        accepted: false,
    },
    Case {
        shows: "the second row of an order at the right",
        hyps: &[AtMost(X(0), Units(0))],
        plan: Combine(&[Step([0, 3], [1, 0], &[(0, 1)], 0), WANTED]),
        accepted: false,
    },
    Case {
        shows: "its own row at the left",
        hyps: &[AtMost(X(0), Units(0))],
        plan: Combine(&[Step([4, 0], [1, 0], &[(0, 1)], 0), WANTED]),
        accepted: false,
    },
    Case {
        shows: "its own row at the right",
        hyps: &[AtMost(X(0), Units(0))],
        plan: Combine(&[Step([0, 4], [1, 0], &[(0, 1)], 0), WANTED]),
        accepted: false,
    },
    Case {
        shows: "a later step at the left",
        hyps: &[AtMost(X(0), Units(0))],
        plan: Combine(&[Step([5, 0], [1, 0], &[], -2), WANTED]),
        accepted: false,
    },
    Case {
        shows: "a later step at the right",
        hyps: &[AtMost(X(0), Units(0))],
        plan: Combine(&[Step([0, 5], [1, 0], &[(0, 1)], 0), WANTED]),
        accepted: false,
    },
    Case {
        shows: "no row of this number",
        hyps: &[AtMost(X(0), Units(0))],
        plan: Combine(&[Step([0, 9], [1, 0], &[(0, 1)], 0), WANTED]),
        accepted: false,
    },
];

// With the goal `x0 <= -1` row 2 is `-x0 <= 0`.
static BOUNDS: [Case; 3] = [
    Case {
        shows: "a bound of 0",
        hyps: &[AtMost(X(0), Units(0))],
        plan: Combine(&[Step([0, 2], [1, 1], &[], 0)]),
        accepted: false,
    },
    Case {
        shows: "a bound of 0 said to be less",
        hyps: &[AtMost(X(0), Units(0))],
        plan: Combine(&[Step([0, 2], [1, 1], &[], -1)]),
        accepted: false,
    },
    Case {
        shows: "a bound below 0",
        hyps: &[AtMost(X(0), Units(-1))],
        plan: Combine(&[Step([0, 2], [1, 1], &[], -1)]),
        accepted: true,
    },
];

// Row 0 is `x0 <= 0`, row 2 `x3 <= 0` and row 4 `-x0 - x3 <= -1`, in some cases with x1 in place of x3. Steps 9 and 10 refute
// them, whatever step 8 is.
static VARIABLES: [Case; 11] = [
    Case {
        shows: "both variables",
        hyps: &[
            AtMost(X(0), Units(0)),
            AtMost(X(3), Units(0)),
            AtMost(Units(1), Add(&X(0), &X(3))),
        ],
        plan: Combine(&[
            Step([0, 2], [1, 1], &[(0, 1), (3, 1)], 0),
            Step([0, 4], [1, 1], &[(3, -1)], -1),
            Step([2, 9], [1, 1], &[], -1),
        ]),
        accepted: true,
    },
    Case {
        shows: "only the first variable",
        hyps: &[
            AtMost(X(0), Units(0)),
            AtMost(X(3), Units(0)),
            AtMost(Units(1), Add(&X(0), &X(3))),
        ],
        plan: Combine(&[
            Step([0, 2], [1, 1], &[(0, 1)], 0),
            Step([0, 4], [1, 1], &[(3, -1)], -1),
            Step([2, 9], [1, 1], &[], -1),
        ]),
        accepted: false,
    },
    Case {
        shows: "only the last variable",
        hyps: &[
            AtMost(X(0), Units(0)),
            AtMost(X(3), Units(0)),
            AtMost(Units(1), Add(&X(0), &X(3))),
        ],
        plan: Combine(&[
            Step([0, 2], [1, 1], &[(3, 1)], 0),
            Step([0, 4], [1, 1], &[(3, -1)], -1),
            Step([2, 9], [1, 1], &[], -1),
        ]),
        accepted: false,
    },
    Case {
        shows: "another coefficient of the last variable",
        hyps: &[
            AtMost(X(0), Units(0)),
            AtMost(X(3), Units(0)),
            AtMost(Units(1), Add(&X(0), &X(3))),
        ],
        plan: Combine(&[
            Step([0, 2], [1, 1], &[(0, 1), (3, 2)], 0),
            Step([0, 4], [1, 1], &[(3, -1)], -1),
            Step([2, 9], [1, 1], &[], -1),
        ]),
        accepted: false,
    },
    Case {
        shows: "a variable between them",
        hyps: &[
            AtMost(X(0), Units(0)),
            AtMost(X(3), Units(0)),
            AtMost(Units(1), Add(&X(0), &X(3))),
        ],
        plan: Combine(&[
            Step([0, 2], [1, 1], &[(0, 1), (2, 1), (3, 1)], 0),
            Step([0, 4], [1, 1], &[(3, -1)], -1),
            Step([2, 9], [1, 1], &[], -1),
        ]),
        accepted: false,
    },
    Case {
        shows: "a variable behind them",
        hyps: &[
            AtMost(X(0), Units(0)),
            AtMost(X(3), Units(0)),
            AtMost(Units(1), Add(&X(0), &X(3))),
        ],
        plan: Combine(&[
            Step([0, 2], [1, 1], &[(0, 1), (3, 1), (4, 1)], 0),
            Step([0, 4], [1, 1], &[(3, -1)], -1),
            Step([2, 9], [1, 1], &[], -1),
        ]),
        accepted: false,
    },
    Case {
        shows: "a bound that isn't the sum",
        hyps: &[
            AtMost(X(0), Units(0)),
            AtMost(X(3), Units(0)),
            AtMost(Units(1), Add(&X(0), &X(3))),
        ],
        plan: Combine(&[
            Step([0, 2], [1, 1], &[(0, 1), (3, 1)], 1),
            Step([0, 4], [1, 1], &[(3, -1)], -1),
            Step([2, 9], [1, 1], &[], -1),
        ]),
        accepted: false,
    },
    Case {
        shows: "two variables next to each other",
        hyps: &[
            AtMost(X(0), Units(0)),
            AtMost(X(1), Units(0)),
            AtMost(Units(1), Add(&X(0), &X(1))),
        ],
        plan: Combine(&[
            Step([0, 2], [1, 1], &[(0, 1), (1, 1)], 0),
            Step([0, 4], [1, 1], &[(1, -1)], -1),
            Step([2, 9], [1, 1], &[], -1),
        ]),
        accepted: true,
    },
    Case {
        shows: "only the first of them",
        hyps: &[
            AtMost(X(0), Units(0)),
            AtMost(X(1), Units(0)),
            AtMost(Units(1), Add(&X(0), &X(1))),
        ],
        plan: Combine(&[
            Step([0, 2], [1, 1], &[(0, 1)], 0),
            Step([0, 4], [1, 1], &[(1, -1)], -1),
            Step([2, 9], [1, 1], &[], -1),
        ]),
        accepted: false,
    },
    Case {
        shows: "only the second of them",
        hyps: &[
            AtMost(X(0), Units(0)),
            AtMost(X(1), Units(0)),
            AtMost(Units(1), Add(&X(0), &X(1))),
        ],
        plan: Combine(&[
            Step([0, 2], [1, 1], &[(1, 1)], 0),
            Step([0, 4], [1, 1], &[(1, -1)], -1),
            Step([2, 9], [1, 1], &[], -1),
        ]),
        accepted: false,
    },
    Case {
        shows: "a step that uses the one before",
        hyps: &[
            AtMost(X(0), Units(0)),
            AtMost(X(3), Units(0)),
            AtMost(Units(1), Add(&X(0), &X(3))),
        ],
        plan: Combine(&[
            Step([0, 2], [1, 1], &[(0, 1), (3, 1)], 0),
            Step([8, 4], [1, 1], &[], -1),
        ]),
        accepted: true,
    },
];

static ASSUMED_ROWS: [Case; 10] = [
    Case {
        shows: "the first row of an equality",
        hyps: &[Same(X(1), Units(3)), AtMost(Units(4), X(1))],
        plan: Combine(&[Step([0, 2], [1, 1], &[], -1)]),
        accepted: true,
    },
    Case {
        shows: "the second row of an equality",
        hyps: &[Same(X(1), Units(3)), AtMost(X(1), Units(2))],
        plan: Combine(&[Step([1, 2], [1, 1], &[], -1)]),
        accepted: true,
    },
    Case {
        shows: "the first for the second row",
        hyps: &[Same(X(1), Units(3)), AtMost(X(1), Units(2))],
        plan: Combine(&[Step([0, 2], [1, 1], &[], -1)]),
        accepted: false,
    },
    Case {
        shows: "the second for the first row",
        hyps: &[Same(X(1), Units(3)), AtMost(Units(4), X(1))],
        plan: Combine(&[Step([1, 2], [1, 1], &[], -1)]),
        accepted: false,
    },
    Case {
        shows: "the row of an application's result",
        hyps: &[
            AtMost(Apply(1, &[X(1), X(5)]), Units(0)),
            AtMost(Units(1), X(5)),
        ],
        plan: Combine(&[Step([0, 2], [1, 1], &[], -1)]),
        accepted: true,
    },
    Case {
        shows: "the row of its operand",
        hyps: &[
            AtMost(Apply(1, &[X(1), X(5)]), Units(0)),
            AtMost(Units(1), X(1)),
        ],
        plan: Combine(&[Step([0, 2], [1, 1], &[], -1)]),
        accepted: false,
    },
    Case {
        shows: "a variable of both sides",
        hyps: &[AtMost(Add(&X(1), &X(2)), X(2)), AtMost(Units(1), X(1))],
        plan: Combine(&[Step([0, 2], [1, 1], &[], -1)]),
        accepted: true,
    },
    Case {
        shows: "a multiple of a sum",
        hyps: &[
            AtMost(Times(3, &Add(&X(1), &Units(2))), Times(2, &X(1))),
            AtMost(Units(-5), X(1)),
        ],
        plan: Combine(&[Step([0, 2], [1, 1], &[], -1)]),
        accepted: true,
    },
    Case {
        shows: "a replaced row",
        hyps: &[
            Same(X(1), X(2)),
            AtMost(X(1), Units(0)),
            AtMost(Units(1), X(2)),
        ],
        plan: Replace(0, 1, &Combine(&[Step([8, 4], [1, 1], &[], -1)])),
        accepted: true,
    },
    Case {
        shows: "a row before it is replaced",
        hyps: &[
            Same(X(1), X(2)),
            AtMost(X(1), Units(0)),
            AtMost(Units(1), X(2)),
        ],
        plan: Replace(0, 1, &Combine(&[Step([2, 4], [1, 1], &[], -1)])),
        accepted: false,
    },
];

// Row 2 is `x1 <= 0`, row 4 `-x1 <= -1` and row 6 `0 <= 0`. Step 9 refutes them, whatever step 8 is.
static WITHOUT_ROWS: [Case; 8] = [
    Case {
        shows: "the opposite of the goal",
        hyps: &[
            Same(R(1), R(2)),
            AtMost(X(1), Units(0)),
            AtMost(Units(1), X(1)),
        ],
        plan: Combine(&[
            Step([6, 2], [1, 1], &[(1, 1)], 0),
            Step([2, 4], [1, 1], &[], -1),
        ]),
        accepted: true,
    },
    Case {
        shows: "references the same",
        hyps: &[
            Same(R(1), R(2)),
            AtMost(X(1), Units(0)),
            AtMost(Units(1), X(1)),
        ],
        plan: Combine(&[
            Step([0, 2], [1, 1], &[(1, 1)], 0),
            Step([2, 4], [1, 1], &[], -1),
        ]),
        accepted: false,
    },
    Case {
        shows: "the second row of references the same",
        hyps: &[
            Same(R(1), R(2)),
            AtMost(X(1), Units(0)),
            AtMost(Units(1), X(1)),
        ],
        plan: Combine(&[
            Step([1, 2], [1, 1], &[(1, 1)], 0),
            Step([2, 4], [1, 1], &[], -1),
        ]),
        accepted: false,
    },
    Case {
        shows: "references apart",
        hyps: &[
            Apart(R(1), R(2)),
            AtMost(X(1), Units(0)),
            AtMost(Units(1), X(1)),
        ],
        plan: Combine(&[
            Step([0, 2], [1, 1], &[(1, 1)], 0),
            Step([2, 4], [1, 1], &[], -1),
        ]),
        accepted: false,
    },
    Case {
        shows: "numbers apart",
        hyps: &[
            Apart(X(0), Units(0)),
            AtMost(X(1), Units(0)),
            AtMost(Units(1), X(1)),
        ],
        plan: Combine(&[
            Step([0, 2], [1, 1], &[(0, 1), (1, 1)], 0),
            Step([2, 4], [1, 1], &[], -1),
        ]),
        accepted: false,
    },
    Case {
        shows: "numbers the same",
        hyps: &[
            Same(X(0), Units(0)),
            AtMost(X(1), Units(0)),
            AtMost(Units(1), X(1)),
        ],
        plan: Combine(&[
            Step([0, 2], [1, 1], &[(0, 1), (1, 1)], 0),
            Step([2, 4], [1, 1], &[], -1),
        ]),
        accepted: true,
    },
    Case {
        shows: "a flag",
        hyps: &[HELD, AtMost(X(1), Units(0)), AtMost(Units(1), X(1))],
        plan: Combine(&[
            Step([0, 2], [1, 1], &[(1, 1)], 0),
            Step([2, 4], [1, 1], &[], -1),
        ]),
        accepted: false,
    },
    Case {
        shows: "a flag at the right",
        hyps: &[HELD, AtMost(X(1), Units(0)), AtMost(Units(1), X(1))],
        plan: Combine(&[
            Step([2, 0], [1, 1], &[(1, 1)], 0),
            Step([2, 4], [1, 1], &[], -1),
        ]),
        accepted: false,
    },
];

#[test]
fn the_last_step_is_false(rt: HostRuntime) -> Result<(), Fail> {
    let goal = AtMost(X(0), Units(1));
    assert_answers(&rt, rt.alloc(), &goal, LAST_STEPS.as_slice())
}

#[test]
fn multipliers_are_positive(rt: HostRuntime) -> Result<(), Fail> {
    let goal = AtMost(X(0), Units(1));
    assert_answers(&rt, rt.alloc(), &goal, MULTIPLIERS.as_slice())
}

#[test]
fn a_step_is_the_exact_sum(rt: HostRuntime) -> Result<(), Fail> {
    let goal = AtMost(X(0), Units(1));
    assert_answers(&rt, rt.alloc(), &goal, NUMBERS.as_slice())
}

#[test]
fn a_step_adds_rows_of_lower_numbers(rt: HostRuntime) -> Result<(), Fail> {
    let goal = AtMost(X(0), Units(1));
    assert_answers(&rt, rt.alloc(), &goal, ROWS.as_slice())
}

#[test]
fn the_last_bound_is_below_0(rt: HostRuntime) -> Result<(), Fail> {
    let goal = AtMost(X(0), Units(-1));
    assert_answers(&rt, rt.alloc(), &goal, BOUNDS.as_slice())
}

#[test]
fn each_variable_has_the_exact_sum(rt: HostRuntime) -> Result<(), Fail> {
    assert_answers(&rt, rt.alloc(), &FALSE, VARIABLES.as_slice())
}

#[test]
fn assumptions_have_rows(rt: HostRuntime) -> Result<(), Fail> {
    assert_answers(&rt, rt.alloc(), &FALSE, ASSUMED_ROWS.as_slice())
}

#[test]
fn some_assumptions_have_no_rows(rt: HostRuntime) -> Result<(), Fail> {
    assert_answers(&rt, rt.alloc(), &FALSE, WITHOUT_ROWS.as_slice())
}
