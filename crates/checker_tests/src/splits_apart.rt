// Splits on the two sides on which numbers lie that are assumed to be apart. The hypotheses are numbered from 0, then comes
// the opposite of the goal, and behind it what the parts assume.
use crate::plans::Fact::{Apart, AtMost, Same};
use crate::plans::Plan::{Clash, Combine, Split};
use crate::plans::Side::{Add, R, Units, X};
use crate::plans::{Case, FALSE, HELD, NOT_HELD, Step, assert_answers};
use std::test::Fail;

static SIDES_APART: [Case; 6] = [
    Case {
        shows: "numbers apart",
        hyps: &[Apart(X(1), X(2)), AtMost(X(2), X(1)), AtMost(X(1), X(2))],
        plan: Split(
            AtMost(Add(&X(1), &Units(1)), X(2)),
            &Clash(1, 4),
            &Clash(2, 4),
        ),
        accepted: true,
    },
    Case {
        shows: "assumed the other way round",
        hyps: &[Apart(X(2), X(1)), AtMost(X(2), X(1)), AtMost(X(1), X(2))],
        plan: Split(
            AtMost(Add(&X(1), &Units(1)), X(2)),
            &Clash(1, 4),
            &Clash(2, 4),
        ),
        accepted: true,
    },
    Case {
        shows: "the other side first",
        hyps: &[Apart(X(1), X(2)), AtMost(X(2), X(1)), AtMost(X(1), X(2))],
        plan: Split(
            AtMost(Add(&X(2), &Units(1)), X(1)),
            &Clash(2, 4),
            &Clash(1, 4),
        ),
        accepted: true,
    },
    Case {
        shows: "an open second part of numbers apart",
        hyps: &[Apart(X(1), X(2)), AtMost(X(2), X(1)), AtMost(X(1), X(2))],
        plan: Split(
            AtMost(Add(&X(1), &Units(1)), X(2)),
            &Clash(1, 4),
            &Clash(1, 4),
        ),
        accepted: false,
    },
    Case {
        shows: "another number apart",
        hyps: &[Apart(X(1), X(3)), AtMost(X(2), X(1)), AtMost(X(1), X(2))],
        plan: Split(
            AtMost(Add(&X(1), &Units(1)), X(2)),
            &Clash(1, 4),
            &Clash(2, 4),
        ),
        accepted: false,
    },
    Case {
        shows: "the same instead of apart",
        hyps: &[Same(X(1), X(2)), AtMost(X(2), X(1)), AtMost(X(1), X(2))],
        plan: Split(
            AtMost(Add(&X(1), &Units(1)), X(2)),
            &Clash(1, 4),
            &Clash(2, 4),
        ),
        accepted: false,
    },
];

static UNITS_APART: [Case; 8] = [
    Case {
        shows: "one unit more",
        hyps: &[Apart(X(1), X(2)), HELD, NOT_HELD],
        plan: Split(
            AtMost(Add(&X(1), &Units(1)), X(2)),
            &Clash(1, 2),
            &Clash(1, 2),
        ),
        accepted: true,
    },
    Case {
        shows: "the unit in front",
        hyps: &[Apart(X(1), X(2)), HELD, NOT_HELD],
        plan: Split(
            AtMost(Add(&Units(1), &X(1)), X(2)),
            &Clash(1, 2),
            &Clash(1, 2),
        ),
        accepted: false,
    },
    Case {
        shows: "two units more",
        hyps: &[Apart(X(1), X(2)), HELD, NOT_HELD],
        plan: Split(
            AtMost(Add(&X(1), &Units(2)), X(2)),
            &Clash(1, 2),
            &Clash(1, 2),
        ),
        accepted: false,
    },
    Case {
        shows: "one unit more twice",
        hyps: &[Apart(X(1), X(2)), HELD, NOT_HELD],
        plan: Split(
            AtMost(Add(&Add(&X(1), &Units(1)), &Units(1)), X(2)),
            &Clash(1, 2),
            &Clash(1, 2),
        ),
        accepted: false,
    },
    Case {
        shows: "one unit more at the right",
        hyps: &[Apart(X(1), X(2)), HELD, NOT_HELD],
        plan: Split(
            AtMost(X(1), Add(&X(2), &Units(1))),
            &Clash(1, 2),
            &Clash(1, 2),
        ),
        accepted: false,
    },
    Case {
        shows: "an order of numbers apart, which are compared",
        hyps: &[Apart(X(1), X(2)), HELD, NOT_HELD],
        plan: Split(AtMost(X(1), X(2)), &Clash(1, 2), &Clash(1, 2)),
        accepted: true,
    },
    Case {
        shows: "a third number",
        hyps: &[Apart(X(1), X(2)), HELD, NOT_HELD],
        plan: Split(
            AtMost(Add(&X(3), &Units(1)), X(2)),
            &Clash(1, 2),
            &Clash(1, 2),
        ),
        accepted: false,
    },
    Case {
        shows: "references apart",
        hyps: &[Apart(R(1), R(2)), HELD, NOT_HELD],
        plan: Split(
            AtMost(Add(&R(1), &Units(1)), R(2)),
            &Clash(1, 2),
            &Clash(1, 2),
        ),
        accepted: false,
    },
];

static APART_FIRST: [Case; 4] = [
    Case {
        shows: "the other side of an order that is compared",
        hyps: &[
            HELD,
            AtMost(Add(&X(1), &Units(1)), X(2)),
            AtMost(X(2), X(1)),
        ],
        plan: Split(
            AtMost(Add(&X(1), &Units(1)), X(2)),
            &Clash(2, 4),
            &Clash(1, 4),
        ),
        accepted: true,
    },
    Case {
        shows: "another other side where the numbers are apart",
        hyps: &[
            Apart(X(1), X(2)),
            AtMost(Add(&X(1), &Units(1)), X(2)),
            AtMost(X(2), X(1)),
        ],
        plan: Split(
            AtMost(Add(&X(1), &Units(1)), X(2)),
            &Clash(2, 4),
            &Clash(1, 4),
        ),
        accepted: false,
    },
    Case {
        shows: "numbers apart by the second part of a split",
        hyps: &[AtMost(X(1), X(2)), AtMost(X(2), X(1)), HELD, NOT_HELD],
        plan: Split(
            Same(X(1), X(2)),
            &Clash(2, 3),
            &Split(
                AtMost(Add(&X(1), &Units(1)), X(2)),
                &Clash(1, 6),
                &Clash(0, 6),
            ),
        ),
        accepted: true,
    },
    Case {
        shows: "numbers the same by the first part of a split",
        hyps: &[AtMost(X(1), X(2)), AtMost(X(2), X(1)), HELD, NOT_HELD],
        plan: Split(
            Same(X(1), X(2)),
            &Split(
                AtMost(Add(&X(1), &Units(1)), X(2)),
                &Clash(1, 6),
                &Clash(0, 6),
            ),
            &Clash(2, 3),
        ),
        accepted: false,
    },
];

// From `x0 <= 0` and x0 apart from 0 follows `x0 <= -1`, whose opposite is `-1 + 1 <= x0`: row 4 is `-x0 <= 0`, and row 6,
// of the first part, `x0 <= -1`.
static ONE_LESS: [Case; 3] = [
    Case {
        shows: "a number that isn't positive and isn't 0",
        hyps: &[AtMost(X(0), Units(0)), Apart(X(0), Units(0))],
        plan: Split(
            AtMost(Add(&X(0), &Units(1)), Units(0)),
            &Combine(&[Step([4, 6], [1, 1], &[], -1)]),
            &Clash(0, 3),
        ),
        accepted: true,
    },
    Case {
        shows: "a number that isn't positive",
        hyps: &[AtMost(X(0), Units(0)), Apart(X(1), Units(0))],
        plan: Split(
            AtMost(Add(&X(0), &Units(1)), Units(0)),
            &Combine(&[Step([4, 6], [1, 1], &[], -1)]),
            &Clash(0, 3),
        ),
        accepted: false,
    },
    Case {
        shows: "a number that isn't 0",
        hyps: &[AtMost(X(1), Units(0)), Apart(X(0), Units(0))],
        plan: Split(
            AtMost(Add(&X(0), &Units(1)), Units(0)),
            &Combine(&[Step([4, 6], [1, 1], &[], -1)]),
            &Clash(0, 3),
        ),
        accepted: false,
    },
];

#[test]
fn numbers_apart_lie_on_two_sides(rt: HostRuntime) -> Result<(), Fail> {
    assert_answers(&rt, rt.alloc(), &FALSE, SIDES_APART.as_slice())
}

#[test]
fn numbers_apart_are_split_at_one_unit_more(rt: HostRuntime) -> Result<(), Fail> {
    assert_answers(&rt, rt.alloc(), &FALSE, UNITS_APART.as_slice())
}

#[test]
fn numbers_assumed_apart_come_before_numbers_compared(rt: HostRuntime) -> Result<(), Fail> {
    assert_answers(&rt, rt.alloc(), &FALSE, APART_FIRST.as_slice())
}

#[test]
fn a_number_at_most_0_and_apart_from_0_is_less(rt: HostRuntime) -> Result<(), Fail> {
    let goal = AtMost(X(0), Units(-1));
    assert_answers(&rt, rt.alloc(), &goal, ONE_LESS.as_slice())
}
