// Congruences: of which applications, and how these are numbered. The hypotheses are numbered from 0, then comes the opposite
// of the goal, and behind it the equalities of results.
use crate::plans::Fact::{Apart, AtMost, Same};
use crate::plans::Plan::{Clash, Congruent, Replace};
use crate::plans::Side::{Add, Apply, Times, Units, X};
use crate::plans::{Case, FALSE, Fact, HELD, assert_answers};
use std::test::Fail;

static ONE_OPERAND: [Case; 10] = [
    Case {
        shows: "equal operands",
        hyps: &[
            AtMost(Apply(1, &[X(1), X(5)]), Apply(1, &[X(1), X(6)])),
            Apart(X(5), X(6)),
        ],
        plan: Congruent(0, 1, &Clash(1, 3)),
        accepted: true,
    },
    Case {
        shows: "the second application first",
        hyps: &[
            AtMost(Apply(1, &[X(1), X(5)]), Apply(1, &[X(1), X(6)])),
            Apart(X(5), X(6)),
        ],
        plan: Congruent(1, 0, &Clash(1, 3)),
        accepted: true,
    },
    Case {
        shows: "an application and itself",
        hyps: &[AtMost(Apply(1, &[X(1), X(5)]), X(2)), Apart(X(5), X(5))],
        plan: Congruent(0, 0, &Clash(1, 3)),
        accepted: true,
    },
    Case {
        shows: "operands assumed to be equal",
        hyps: &[
            AtMost(Apply(1, &[X(1), X(5)]), Apply(1, &[X(2), X(6)])),
            Apart(X(5), X(6)),
            Same(X(1), X(2)),
        ],
        plan: Congruent(0, 1, &Clash(1, 4)),
        accepted: true,
    },
    Case {
        shows: "assumed the other way round",
        hyps: &[
            AtMost(Apply(1, &[X(1), X(5)]), Apply(1, &[X(2), X(6)])),
            Apart(X(5), X(6)),
            Same(X(2), X(1)),
        ],
        plan: Congruent(0, 1, &Clash(1, 4)),
        accepted: true,
    },
    Case {
        shows: "other operands",
        hyps: &[
            AtMost(Apply(1, &[X(1), X(5)]), Apply(1, &[X(2), X(6)])),
            Apart(X(5), X(6)),
            Same(X(1), X(3)),
        ],
        plan: Congruent(0, 1, &Clash(1, 4)),
        accepted: false,
    },
    Case {
        shows: "operands assumed to be apart",
        hyps: &[
            AtMost(Apply(1, &[X(1), X(5)]), Apply(1, &[X(2), X(6)])),
            Apart(X(5), X(6)),
            Apart(X(1), X(2)),
        ],
        plan: Congruent(0, 1, &Clash(1, 4)),
        accepted: false,
    },
    Case {
        shows: "operands in an order",
        hyps: &[
            AtMost(Apply(1, &[X(1), X(5)]), Apply(1, &[X(2), X(6)])),
            Apart(X(5), X(6)),
            AtMost(X(1), X(2)),
        ],
        plan: Congruent(0, 1, &Clash(1, 4)),
        accepted: false,
    },
    Case {
        shows: "two operators",
        hyps: &[
            AtMost(Apply(1, &[X(1), X(5)]), Apply(2, &[X(1), X(6)])),
            Apart(X(5), X(6)),
        ],
        plan: Congruent(0, 1, &Clash(1, 3)),
        accepted: false,
    },
    Case {
        shows: "the operands aren't added",
        hyps: &[
            AtMost(Apply(1, &[X(1), X(5)]), Apply(1, &[X(2), X(6)])),
            Apart(X(1), X(2)),
            Same(X(1), X(2)),
        ],
        plan: Congruent(0, 1, &Clash(1, 4)),
        accepted: false,
    },
];

static MORE_OPERANDS: [Case; 10] = [
    Case {
        shows: "equal and assumed to be equal",
        hyps: &[
            AtMost(Apply(1, &[X(1), X(2), X(5)]), Apply(1, &[X(1), X(3), X(6)])),
            Apart(X(5), X(6)),
            Same(X(2), X(3)),
        ],
        plan: Congruent(0, 1, &Clash(1, 4)),
        accepted: true,
    },
    Case {
        shows: "another first operand",
        hyps: &[
            AtMost(Apply(1, &[X(1), X(2), X(5)]), Apply(1, &[X(4), X(3), X(6)])),
            Apart(X(5), X(6)),
            Same(X(2), X(3)),
        ],
        plan: Congruent(0, 1, &Clash(1, 4)),
        accepted: false,
    },
    Case {
        shows: "another second operand",
        hyps: &[
            AtMost(Apply(1, &[X(1), X(2), X(5)]), Apply(1, &[X(1), X(3), X(6)])),
            Apart(X(5), X(6)),
            Same(X(2), X(4)),
        ],
        plan: Congruent(0, 1, &Clash(1, 4)),
        accepted: false,
    },
    Case {
        shows: "operands in each other's places",
        hyps: &[
            AtMost(Apply(1, &[X(1), X(2), X(5)]), Apply(1, &[X(2), X(1), X(6)])),
            Apart(X(5), X(6)),
            HELD,
        ],
        plan: Congruent(0, 1, &Clash(1, 4)),
        accepted: false,
    },
    Case {
        shows: "no operands",
        hyps: &[
            AtMost(Apply(1, &[X(5)]), Apply(1, &[X(6)])),
            Apart(X(5), X(6)),
            HELD,
        ],
        plan: Congruent(0, 1, &Clash(1, 4)),
        accepted: true,
    },
    Case {
        shows: "one operand more",
        hyps: &[
            AtMost(Apply(1, &[X(1), X(5)]), Apply(1, &[X(1), X(2), X(6)])),
            Apart(X(5), X(6)),
            HELD,
        ],
        plan: Congruent(0, 1, &Clash(1, 4)),
        accepted: false,
    },
    Case {
        shows: "one operand less",
        hyps: &[
            AtMost(Apply(1, &[X(1), X(2), X(5)]), Apply(1, &[X(1), X(6)])),
            Apart(X(5), X(6)),
            HELD,
        ],
        plan: Congruent(0, 1, &Clash(1, 4)),
        accepted: false,
    },
    Case {
        shows: "one operand and none",
        hyps: &[
            AtMost(Apply(1, &[X(1), X(5)]), Apply(1, &[X(6)])),
            Apart(X(5), X(6)),
            HELD,
        ],
        plan: Congruent(0, 1, &Clash(1, 4)),
        accepted: false,
    },
    Case {
        shows: "sums",
        hyps: &[
            AtMost(
                Apply(1, &[Add(&X(1), &Units(2)), X(5)]),
                Apply(1, &[Add(&X(1), &Units(2)), X(6)]),
            ),
            Apart(X(5), X(6)),
            HELD,
        ],
        plan: Congruent(0, 1, &Clash(1, 4)),
        accepted: true,
    },
    Case {
        shows: "two sums of one value",
        hyps: &[
            AtMost(
                Apply(1, &[Add(&X(1), &Units(2)), X(5)]),
                Apply(1, &[Add(&Units(2), &X(1)), X(6)]),
            ),
            Apart(X(5), X(6)),
            HELD,
        ],
        plan: Congruent(0, 1, &Clash(1, 4)),
        accepted: false,
    },
];

static COUNTED: [Case; 8] = [
    Case {
        shows: "an application is counted once",
        hyps: &[
            AtMost(Apply(1, &[X(1), X(5)]), Apply(1, &[X(1), X(5)])),
            AtMost(Apply(1, &[X(1), X(6)]), X(0)),
            Apart(X(5), X(6)),
        ],
        plan: Congruent(0, 1, &Clash(2, 4)),
        accepted: true,
    },
    Case {
        shows: "an application isn't counted again",
        hyps: &[
            AtMost(Apply(1, &[X(1), X(5)]), Apply(1, &[X(1), X(5)])),
            AtMost(Apply(1, &[X(1), X(6)]), X(0)),
            Apart(X(5), X(6)),
        ],
        plan: Congruent(0, 2, &Clash(2, 4)),
        accepted: false,
    },
    Case {
        shows: "no right application of this number",
        hyps: &[
            AtMost(Apply(1, &[X(1), X(5)]), Apply(1, &[X(1), X(6)])),
            HELD,
            Apart(X(5), X(6)),
        ],
        plan: Congruent(0, 2, &Clash(2, 4)),
        accepted: false,
    },
    Case {
        shows: "no left application of this number",
        hyps: &[
            AtMost(Apply(1, &[X(1), X(5)]), Apply(1, &[X(1), X(6)])),
            HELD,
            Apart(X(5), X(6)),
        ],
        plan: Congruent(2, 0, &Clash(2, 4)),
        accepted: false,
    },
    Case {
        shows: "one that stood within another isn't counted again",
        hyps: &[
            AtMost(
                Apply(2, &[Apply(1, &[X(1), X(5)]), X(6)]),
                Apply(1, &[X(1), X(5)]),
            ),
            AtMost(Apply(1, &[X(1), X(7)]), X(0)),
            Apart(X(5), X(7)),
        ],
        plan: Congruent(1, 2, &Clash(2, 4)),
        accepted: true,
    },
    Case {
        shows: "one that stands within another isn't counted again",
        hyps: &[
            AtMost(
                Apply(1, &[X(1), X(5)]),
                Apply(2, &[Apply(1, &[X(1), X(5)]), X(6)]),
            ),
            AtMost(Apply(1, &[X(1), X(7)]), X(0)),
            Apart(X(5), X(7)),
        ],
        plan: Congruent(0, 2, &Clash(2, 4)),
        accepted: true,
    },
    Case {
        shows: "one of another result is counted",
        hyps: &[
            AtMost(Apply(1, &[X(1), X(5)]), Apply(1, &[X(1), X(6)])),
            AtMost(Apply(1, &[X(1), X(7)]), X(0)),
            Apart(X(5), X(7)),
        ],
        plan: Congruent(0, 2, &Clash(2, 4)),
        accepted: true,
    },
    Case {
        shows: "one that a replacement made isn't counted",
        hyps: &[
            Same(X(1), X(2)),
            AtMost(Apply(1, &[X(1), X(5)]), Apply(1, &[X(2), X(6)])),
            Apart(X(5), X(6)),
        ],
        plan: Replace(0, 1, &Congruent(2, 1, &Clash(2, 5))),
        accepted: false,
    },
];

static IN_ORDER: [Case; 7] = [
    Case {
        shows: "the outer one comes first",
        hyps: &[
            AtMost(
                Apply(1, &[Apply(2, &[X(1), X(5)]), X(6)]),
                Apply(2, &[X(1), X(7)]),
            ),
            Apart(X(5), X(7)),
        ],
        plan: Congruent(1, 2, &Clash(1, 3)),
        accepted: true,
    },
    Case {
        shows: "the inner one doesn't come first",
        hyps: &[
            AtMost(
                Apply(1, &[Apply(2, &[X(1), X(5)]), X(6)]),
                Apply(2, &[X(1), X(7)]),
            ),
            Apart(X(5), X(7)),
        ],
        plan: Congruent(0, 2, &Clash(1, 3)),
        accepted: false,
    },
    Case {
        shows: "from left to right",
        hyps: &[
            AtMost(
                Add(&Apply(2, &[X(1), X(5)]), &Apply(1, &[X(1), X(6)])),
                Apply(1, &[X(1), X(7)]),
            ),
            Apart(X(6), X(7)),
        ],
        plan: Congruent(1, 2, &Clash(1, 3)),
        accepted: true,
    },
    Case {
        shows: "not from right to left",
        hyps: &[
            AtMost(
                Add(&Apply(2, &[X(1), X(5)]), &Apply(1, &[X(1), X(6)])),
                Apply(1, &[X(1), X(7)]),
            ),
            Apart(X(6), X(7)),
        ],
        plan: Congruent(0, 1, &Clash(1, 3)),
        accepted: false,
    },
    Case {
        shows: "within a multiple",
        hyps: &[
            AtMost(Times(2, &Apply(1, &[X(1), X(5)])), Apply(1, &[X(1), X(6)])),
            Apart(X(5), X(6)),
        ],
        plan: Congruent(0, 1, &Clash(1, 3)),
        accepted: true,
    },
    Case {
        shows: "operands from left to right",
        hyps: &[
            AtMost(
                Apply(3, &[Apply(1, &[X(1), X(5)]), Apply(2, &[X(1), X(6)]), X(7)]),
                Apply(2, &[X(1), X(8)]),
            ),
            Apart(X(6), X(8)),
        ],
        plan: Congruent(2, 3, &Clash(1, 3)),
        accepted: true,
    },
    Case {
        shows: "after a replacement",
        hyps: &[
            Same(X(1), X(2)),
            AtMost(Apply(1, &[X(1), X(5)]), Apply(1, &[X(2), X(6)])),
            Apart(X(5), X(6)),
        ],
        plan: Replace(0, 1, &Congruent(0, 1, &Clash(2, 5))),
        accepted: true,
    },
];

static IN_TURN: [Case; 2] = [
    Case {
        shows: "operands equal by a congruence",
        hyps: &[
            AtMost(Apply(1, &[X(1), X(5)]), Apply(1, &[X(1), X(6)])),
            AtMost(Apply(2, &[X(5), X(7)]), Apply(2, &[X(6), X(8)])),
            Apart(X(7), X(8)),
        ],
        plan: Congruent(0, 1, &Congruent(2, 3, &Clash(2, 5))),
        accepted: true,
    },
    Case {
        shows: "operands not yet equal by a congruence",
        hyps: &[
            AtMost(Apply(1, &[X(1), X(5)]), Apply(1, &[X(1), X(6)])),
            AtMost(Apply(2, &[X(5), X(7)]), Apply(2, &[X(6), X(8)])),
            Apart(X(7), X(8)),
        ],
        plan: Congruent(2, 3, &Congruent(0, 1, &Clash(2, 4))),
        accepted: false,
    },
];

// The goal.
static APPLICATION: Fact = AtMost(Apply(1, &[X(1), X(6)]), Units(0));

static BEHIND: [Case; 2] = [
    Case {
        shows: "an application in the goal",
        hyps: &[AtMost(Apply(1, &[X(1), X(5)]), Units(0)), Apart(X(5), X(6))],
        plan: Congruent(0, 1, &Clash(1, 3)),
        accepted: true,
    },
    Case {
        shows: "the goal comes last",
        hyps: &[
            AtMost(Apply(2, &[X(1), X(5)]), Apply(1, &[X(1), X(7)])),
            Apart(X(7), X(6)),
        ],
        plan: Congruent(1, 2, &Clash(1, 3)),
        accepted: true,
    },
];

#[test]
fn applications_to_equal_operands_are_congruent(rt: HostRuntime) -> Result<(), Fail> {
    assert_answers(&rt, rt.alloc(), &FALSE, ONE_OPERAND.as_slice())
}

#[test]
fn operands_are_equal_place_by_place(rt: HostRuntime) -> Result<(), Fail> {
    assert_answers(&rt, rt.alloc(), &FALSE, MORE_OPERANDS.as_slice())
}

#[test]
fn each_application_is_counted_once(rt: HostRuntime) -> Result<(), Fail> {
    assert_answers(&rt, rt.alloc(), &FALSE, COUNTED.as_slice())
}

#[test]
fn applications_are_counted_as_they_stand(rt: HostRuntime) -> Result<(), Fail> {
    assert_answers(&rt, rt.alloc(), &FALSE, IN_ORDER.as_slice())
}

#[test]
fn congruences_follow_one_another(rt: HostRuntime) -> Result<(), Fail> {
    assert_answers(&rt, rt.alloc(), &FALSE, IN_TURN.as_slice())
}

#[test]
fn applications_of_the_goal_are_counted(rt: HostRuntime) -> Result<(), Fail> {
    assert_answers(&rt, rt.alloc(), &APPLICATION, BEHIND.as_slice())
}
