// Clashes of two assumptions, and literals that are false by themselves. The hypotheses are numbered from 0, and the
// opposite of the goal comes behind them.
use crate::plans::Fact::{Apart, AtMost, Flag, Same};
use crate::plans::Plan::Clash;
use crate::plans::Side::{Add, Apply, Nil, R, Reference, Units, X};
use crate::plans::{Case, FALSE, HELD, NOT_HELD, assert_answers};
use std::test::Fail;

static ORDERS: [Case; 7] = [
    Case {
        shows: "an order and its opposite",
        hyps: &[
            AtMost(X(1), Units(3)),
            AtMost(Add(&Units(3), &Units(1)), X(1)),
        ],
        plan: Clash(0, 1),
        accepted: true,
    },
    Case {
        shows: "the opposite in front",
        hyps: &[
            AtMost(X(1), Units(3)),
            AtMost(Add(&Units(3), &Units(1)), X(1)),
        ],
        plan: Clash(1, 0),
        accepted: true,
    },
    Case {
        shows: "the unit in front of the term",
        hyps: &[
            AtMost(X(1), Units(3)),
            AtMost(Add(&Units(1), &Units(3)), X(1)),
        ],
        plan: Clash(0, 1),
        accepted: false,
    },
    Case {
        shows: "two units more",
        hyps: &[
            AtMost(X(1), Units(3)),
            AtMost(Add(&Units(3), &Units(2)), X(1)),
        ],
        plan: Clash(0, 1),
        accepted: false,
    },
    Case {
        shows: "the units added up",
        hyps: &[AtMost(X(1), Units(3)), AtMost(Units(4), X(1))],
        plan: Clash(0, 1),
        accepted: false,
    },
    Case {
        shows: "an order's sides exchanged",
        hyps: &[
            AtMost(X(1), Units(3)),
            AtMost(X(1), Add(&Units(3), &Units(1))),
        ],
        plan: Clash(0, 1),
        accepted: false,
    },
    Case {
        shows: "an order of another number",
        hyps: &[
            AtMost(X(1), Units(3)),
            AtMost(Add(&Units(3), &Units(1)), X(2)),
        ],
        plan: Clash(0, 1),
        accepted: false,
    },
];

static EQUALITIES: [Case; 10] = [
    Case {
        shows: "references the same and apart",
        hyps: &[Same(R(1), R(2)), Apart(R(1), R(2))],
        plan: Clash(0, 1),
        accepted: true,
    },
    Case {
        shows: "its sides exchanged",
        hyps: &[Same(R(1), R(2)), Apart(R(2), R(1))],
        plan: Clash(0, 1),
        accepted: true,
    },
    Case {
        shows: "its sides exchanged and in front",
        hyps: &[Same(R(1), R(2)), Apart(R(2), R(1))],
        plan: Clash(1, 0),
        accepted: true,
    },
    Case {
        shows: "numbers apart and the same",
        hyps: &[
            Apart(X(1), Add(&X(2), &Units(1))),
            Same(Add(&X(2), &Units(1)), X(1)),
        ],
        plan: Clash(0, 1),
        accepted: true,
    },
    Case {
        shows: "None and the reference 0",
        hyps: &[Same(R(1), Nil), Apart(Reference(0), R(1))],
        plan: Clash(0, 1),
        accepted: true,
    },
    Case {
        shows: "None and another reference",
        hyps: &[Same(R(1), Nil), Apart(Reference(1), R(1))],
        plan: Clash(0, 1),
        accepted: false,
    },
    Case {
        shows: "two equalities",
        hyps: &[Same(R(1), R(2)), Same(R(1), R(2))],
        plan: Clash(0, 1),
        accepted: false,
    },
    Case {
        shows: "another right side",
        hyps: &[Same(R(1), R(2)), Apart(R(1), R(3))],
        plan: Clash(0, 1),
        accepted: false,
    },
    Case {
        shows: "another left side",
        hyps: &[Same(R(1), R(2)), Apart(R(3), R(2))],
        plan: Clash(0, 1),
        accepted: false,
    },
    Case {
        shows: "a symbol and the reference of its number",
        hyps: &[Same(R(1), R(2)), Apart(R(1), Reference(2))],
        plan: Clash(0, 1),
        accepted: false,
    },
];

static FLAGS: [Case; 7] = [
    Case {
        shows: "a flag and its opposite",
        hyps: &[HELD, NOT_HELD],
        plan: Clash(0, 1),
        accepted: true,
    },
    Case {
        shows: "two flags",
        hyps: &[HELD, Flag(1, false)],
        plan: Clash(0, 1),
        accepted: false,
    },
    Case {
        shows: "a flag twice",
        hyps: &[HELD, HELD],
        plan: Clash(0, 1),
        accepted: false,
    },
    Case {
        shows: "a flag and what is false by itself",
        hyps: &[HELD, Apart(X(0), X(0))],
        plan: Clash(0, 1),
        accepted: false,
    },
    Case {
        shows: "the opposite of the goal is the last assumption",
        hyps: &[HELD, AtMost(Units(1), Units(0))],
        plan: Clash(1, 2),
        accepted: true,
    },
    Case {
        shows: "no right assumption of this number",
        hyps: &[HELD, NOT_HELD],
        plan: Clash(0, 3),
        accepted: false,
    },
    Case {
        shows: "no left assumption of this number",
        hyps: &[HELD, NOT_HELD],
        plan: Clash(3, 0),
        accepted: false,
    },
];

static BY_ITSELF: [Case; 13] = [
    Case {
        shows: "a reference apart from itself",
        hyps: &[Apart(R(1), R(1))],
        plan: Clash(0, 0),
        accepted: true,
    },
    Case {
        shows: "a number apart from itself",
        hyps: &[Apart(Add(&X(1), &Units(1)), Add(&X(1), &Units(1)))],
        plan: Clash(0, 0),
        accepted: true,
    },
    Case {
        shows: "None apart from the reference 0",
        hyps: &[Apart(Nil, Reference(0))],
        plan: Clash(0, 0),
        accepted: true,
    },
    Case {
        shows: "two references the same",
        hyps: &[Same(Reference(1), Reference(2))],
        plan: Clash(0, 0),
        accepted: true,
    },
    Case {
        shows: "None the same as another reference",
        hyps: &[Same(Reference(1), Nil)],
        plan: Clash(0, 0),
        accepted: true,
    },
    Case {
        shows: "two symbols apart",
        hyps: &[Apart(R(1), R(2))],
        plan: Clash(0, 0),
        accepted: false,
    },
    Case {
        shows: "two symbols the same",
        hyps: &[Same(R(1), R(2))],
        plan: Clash(0, 0),
        accepted: false,
    },
    Case {
        shows: "None the same as the reference 0",
        hyps: &[Same(Reference(0), Nil)],
        plan: Clash(0, 0),
        accepted: false,
    },
    Case {
        shows: "two numbers the same",
        hyps: &[Same(Units(1), Units(2))],
        plan: Clash(0, 0),
        accepted: false,
    },
    Case {
        shows: "an order that doesn't hold",
        hyps: &[AtMost(Units(1), Units(0))],
        plan: Clash(0, 0),
        accepted: false,
    },
    Case {
        shows: "a flag by itself",
        hyps: &[HELD],
        plan: Clash(0, 0),
        accepted: false,
    },
    Case {
        shows: "two of the same numbers apart",
        hyps: &[Apart(X(1), X(1)), Apart(X(1), X(1))],
        plan: Clash(0, 1),
        accepted: false,
    },
    Case {
        shows: "no assumption of this number by itself",
        hyps: &[Apart(X(1), X(1))],
        plan: Clash(2, 2),
        accepted: false,
    },
];

static UNSORTED: [Case; 9] = [
    Case {
        shows: "None and a symbol",
        hyps: &[HELD, NOT_HELD, Same(Nil, R(1))],
        plan: Clash(0, 1),
        accepted: true,
    },
    Case {
        shows: "an application to a number",
        hyps: &[HELD, NOT_HELD, Same(Apply(1, &[X(1), X(2)]), X(3))],
        plan: Clash(0, 1),
        accepted: true,
    },
    Case {
        shows: "an order of references",
        hyps: &[HELD, NOT_HELD, AtMost(R(1), R(2))],
        plan: Clash(0, 1),
        accepted: false,
    },
    Case {
        shows: "a reference the same as a number",
        hyps: &[HELD, NOT_HELD, Same(R(1), X(1))],
        plan: Clash(0, 1),
        accepted: false,
    },
    Case {
        shows: "a number apart from None",
        hyps: &[HELD, NOT_HELD, Apart(Units(0), Nil)],
        plan: Clash(0, 1),
        accepted: false,
    },
    Case {
        shows: "an application to a reference",
        hyps: &[HELD, NOT_HELD, Same(Apply(1, &[R(1), X(2)]), X(3))],
        plan: Clash(0, 1),
        accepted: false,
    },
    Case {
        shows: "an application without a result",
        hyps: &[HELD, NOT_HELD, Same(Apply(1, &[]), X(3))],
        plan: Clash(0, 1),
        accepted: false,
    },
    Case {
        shows: "a unit more than a reference",
        hyps: &[HELD, NOT_HELD, AtMost(Add(&R(1), &Units(1)), X(1))],
        plan: Clash(0, 1),
        accepted: false,
    },
    Case {
        shows: "the first hypothesis",
        hyps: &[AtMost(R(1), R(2)), HELD, NOT_HELD],
        plan: Clash(1, 2),
        accepted: false,
    },
];

static FLAG_BEHIND: [Case; 2] = [
    Case {
        shows: "the goal among the hypotheses",
        hyps: &[HELD],
        plan: Clash(0, 1),
        accepted: true,
    },
    Case {
        shows: "the opposite of the goal among the hypotheses",
        hyps: &[NOT_HELD],
        plan: Clash(0, 1),
        accepted: false,
    },
];

static SAME_BEHIND: [Case; 3] = [
    Case {
        shows: "an equality",
        hyps: &[Same(R(1), R(2))],
        plan: Clash(0, 1),
        accepted: true,
    },
    Case {
        shows: "an equality the other way round",
        hyps: &[Same(R(2), R(1))],
        plan: Clash(0, 1),
        accepted: true,
    },
    Case {
        shows: "the opposite of an equality",
        hyps: &[Apart(R(1), R(2))],
        plan: Clash(0, 1),
        accepted: false,
    },
];

static APART_BEHIND: [Case; 2] = [
    Case {
        shows: "apart",
        hyps: &[Apart(X(1), X(2))],
        plan: Clash(0, 1),
        accepted: true,
    },
    Case {
        shows: "the same",
        hyps: &[Same(X(1), X(2))],
        plan: Clash(0, 1),
        accepted: false,
    },
];

static ORDER_BEHIND: [Case; 3] = [
    Case {
        shows: "an order",
        hyps: &[AtMost(X(1), X(2))],
        plan: Clash(0, 1),
        accepted: true,
    },
    Case {
        shows: "the opposite of an order",
        hyps: &[AtMost(Add(&X(2), &Units(1)), X(1))],
        plan: Clash(0, 1),
        accepted: false,
    },
    Case {
        shows: "the order the other way round",
        hyps: &[AtMost(X(2), X(1))],
        plan: Clash(0, 1),
        accepted: false,
    },
];

static UNSORTED_GOAL: [Case; 1] = [Case {
    shows: "hypotheses that clash",
    hyps: &[HELD, NOT_HELD],
    plan: Clash(0, 1),
    accepted: false,
}];

#[test]
fn an_order_clashes_with_its_opposite(rt: HostRuntime) -> Result<(), Fail> {
    assert_answers(&rt, rt.alloc(), &FALSE, ORDERS.as_slice())
}

#[test]
fn equalities_clash_with_their_opposites(rt: HostRuntime) -> Result<(), Fail> {
    assert_answers(&rt, rt.alloc(), &FALSE, EQUALITIES.as_slice())
}

#[test]
fn flags_clash_with_their_opposites(rt: HostRuntime) -> Result<(), Fail> {
    assert_answers(&rt, rt.alloc(), &FALSE, FLAGS.as_slice())
}

#[test]
fn some_literals_are_false_by_themselves(rt: HostRuntime) -> Result<(), Fail> {
    assert_answers(&rt, rt.alloc(), &FALSE, BY_ITSELF.as_slice())
}

#[test]
fn the_hypotheses_are_sorted(rt: HostRuntime) -> Result<(), Fail> {
    assert_answers(&rt, rt.alloc(), &FALSE, UNSORTED.as_slice())
}

#[test]
fn the_goal_is_sorted(rt: HostRuntime) -> Result<(), Fail> {
    let goal = AtMost(R(1), Units(0));
    assert_answers(&rt, rt.alloc(), &goal, UNSORTED_GOAL.as_slice())
}

#[test]
fn the_opposite_of_a_flag_or_an_order_is_assumed(rt: HostRuntime) -> Result<(), Fail> {
    assert_answers(&rt, rt.alloc(), &HELD, FLAG_BEHIND.as_slice())?;
    let goal = AtMost(X(1), X(2));
    assert_answers(&rt, rt.alloc(), &goal, ORDER_BEHIND.as_slice())
}

#[test]
fn the_opposite_of_an_equality_is_assumed(rt: HostRuntime) -> Result<(), Fail> {
    let goal = Same(R(1), R(2));
    assert_answers(&rt, rt.alloc(), &goal, SAME_BEHIND.as_slice())?;
    let goal = Apart(X(1), X(2));
    assert_answers(&rt, rt.alloc(), &goal, APART_BEHIND.as_slice())
}
