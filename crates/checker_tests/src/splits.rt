// Splits: on which literals, and what their two parts assume. The hypotheses are numbered from 0, then comes the opposite of
// the goal, and behind it what the parts assume.
use crate::plans::Fact::{Apart, AtMost, Flag, Same};
use crate::plans::Plan::{Clash, Split};
use crate::plans::Side::{Add, Apply, Nil, R, Reference, Times, Units, X};
use crate::plans::{Case, FALSE, Fact, HELD, NOT_HELD, assert_answers};
use std::test::Fail;

static PARTS: [Case; 9] = [
    Case {
        shows: "a flag",
        hyps: &[NOT_HELD, HELD],
        plan: Split(HELD, &Clash(0, 3), &Clash(1, 3)),
        accepted: true,
    },
    Case {
        shows: "a flag that isn't held",
        hyps: &[NOT_HELD, HELD],
        plan: Split(NOT_HELD, &Clash(1, 3), &Clash(0, 3)),
        accepted: true,
    },
    Case {
        shows: "an open first part",
        hyps: &[NOT_HELD, HELD],
        plan: Split(HELD, &Clash(1, 3), &Clash(1, 3)),
        accepted: false,
    },
    Case {
        shows: "an open second part",
        hyps: &[NOT_HELD, HELD],
        plan: Split(HELD, &Clash(0, 3), &Clash(0, 3)),
        accepted: false,
    },
    Case {
        shows: "another flag in the parts",
        hyps: &[NOT_HELD, HELD],
        plan: Split(Flag(1, true), &Clash(0, 3), &Clash(1, 3)),
        accepted: false,
    },
    Case {
        shows: "a flag of which the condition doesn't speak",
        hyps: &[NOT_HELD, HELD],
        plan: Split(Flag(1, true), &Clash(0, 1), &Clash(0, 1)),
        accepted: true,
    },
    Case {
        shows: "a split in the first part",
        hyps: &[NOT_HELD, HELD],
        plan: Split(
            Flag(1, true),
            &Split(HELD, &Clash(0, 4), &Clash(1, 4)),
            &Clash(0, 1),
        ),
        accepted: true,
    },
    Case {
        shows: "a split in the second part",
        hyps: &[NOT_HELD, HELD],
        plan: Split(
            Flag(1, true),
            &Clash(0, 1),
            &Split(HELD, &Clash(0, 4), &Clash(1, 4)),
        ),
        accepted: true,
    },
    Case {
        shows: "what only the first part assumes",
        hyps: &[NOT_HELD, HELD],
        plan: Split(
            Flag(1, true),
            &Split(HELD, &Clash(0, 4), &Clash(1, 4)),
            &Clash(0, 4),
        ),
        accepted: false,
    },
];

static REFERENCES: [Case; 10] = [
    Case {
        shows: "an equality of references",
        hyps: &[Same(R(1), R(2)), Apart(R(1), R(2))],
        plan: Split(Same(R(1), R(2)), &Clash(1, 3), &Clash(0, 3)),
        accepted: true,
    },
    Case {
        shows: "references apart",
        hyps: &[Same(R(1), R(2)), Apart(R(1), R(2))],
        plan: Split(Apart(R(1), R(2)), &Clash(0, 3), &Clash(1, 3)),
        accepted: true,
    },
    Case {
        shows: "an open part of references apart",
        hyps: &[Same(R(1), R(2)), Apart(R(1), R(2))],
        plan: Split(Apart(R(1), R(2)), &Clash(0, 3), &Clash(0, 3)),
        accepted: false,
    },
    Case {
        shows: "references of which the condition doesn't speak",
        hyps: &[HELD, NOT_HELD],
        plan: Split(Same(R(5), R(6)), &Clash(0, 1), &Clash(0, 1)),
        accepted: true,
    },
    Case {
        shows: "a reference apart from None",
        hyps: &[HELD, NOT_HELD],
        plan: Split(Apart(R(5), Nil), &Clash(0, 1), &Clash(0, 1)),
        accepted: true,
    },
    Case {
        shows: "a reference apart from itself in the second part",
        hyps: &[HELD, NOT_HELD],
        plan: Split(Same(R(5), R(5)), &Clash(0, 1), &Clash(3, 3)),
        accepted: true,
    },
    Case {
        shows: "None apart from the reference 0 in the second part",
        hyps: &[HELD, NOT_HELD],
        plan: Split(Same(Nil, Reference(0)), &Clash(0, 1), &Clash(3, 3)),
        accepted: true,
    },
    Case {
        shows: "a reference the same as a number",
        hyps: &[HELD, NOT_HELD],
        plan: Split(Same(R(1), X(1)), &Clash(0, 1), &Clash(0, 1)),
        accepted: false,
    },
    Case {
        shows: "a number apart from a reference",
        hyps: &[HELD, NOT_HELD],
        plan: Split(Apart(X(1), R(1)), &Clash(0, 1), &Clash(0, 1)),
        accepted: false,
    },
    Case {
        shows: "an order of references that are compared",
        hyps: &[HELD, NOT_HELD, Same(R(1), R(2))],
        plan: Split(AtMost(R(1), R(2)), &Clash(0, 1), &Clash(0, 1)),
        accepted: false,
    },
];

static NUMBERS: [Case; 11] = [
    Case {
        shows: "an equality of numbers that are compared",
        hyps: &[HELD, NOT_HELD, AtMost(X(1), X(2))],
        plan: Split(Same(X(1), X(2)), &Clash(0, 1), &Clash(0, 1)),
        accepted: true,
    },
    Case {
        shows: "an equality the other way round",
        hyps: &[HELD, NOT_HELD, AtMost(X(1), X(2))],
        plan: Split(Same(X(2), X(1)), &Clash(0, 1), &Clash(0, 1)),
        accepted: true,
    },
    Case {
        shows: "an order of numbers that are compared",
        hyps: &[HELD, NOT_HELD, AtMost(X(1), X(2))],
        plan: Split(AtMost(X(1), X(2)), &Clash(0, 1), &Clash(0, 1)),
        accepted: true,
    },
    Case {
        shows: "an order the other way round",
        hyps: &[HELD, NOT_HELD, AtMost(X(1), X(2))],
        plan: Split(AtMost(X(2), X(1)), &Clash(0, 1), &Clash(0, 1)),
        accepted: true,
    },
    Case {
        shows: "numbers that the goal compares",
        hyps: &[HELD, NOT_HELD, AtMost(X(1), X(2))],
        plan: Split(Same(Units(0), Units(1)), &Clash(0, 1), &Clash(0, 1)),
        accepted: true,
    },
    Case {
        shows: "numbers apart that are compared",
        hyps: &[HELD, NOT_HELD, AtMost(X(1), X(2))],
        plan: Split(Apart(X(1), X(2)), &Clash(0, 1), &Clash(0, 1)),
        accepted: false,
    },
    Case {
        shows: "an equality of numbers that aren't compared",
        hyps: &[HELD, NOT_HELD, AtMost(X(1), X(2))],
        plan: Split(Same(X(1), X(3)), &Clash(0, 1), &Clash(0, 1)),
        accepted: false,
    },
    Case {
        shows: "an order of numbers that aren't compared",
        hyps: &[HELD, NOT_HELD, AtMost(X(1), X(2))],
        plan: Split(AtMost(X(3), X(2)), &Clash(0, 1), &Clash(0, 1)),
        accepted: false,
    },
    Case {
        shows: "an order of one unit more",
        hyps: &[HELD, NOT_HELD, AtMost(X(1), X(2))],
        plan: Split(
            AtMost(Add(&X(1), &Units(1)), X(2)),
            &Clash(0, 1),
            &Clash(0, 1),
        ),
        accepted: false,
    },
    Case {
        shows: "a number with itself",
        hyps: &[HELD, NOT_HELD, AtMost(X(1), X(2))],
        plan: Split(Same(X(1), X(1)), &Clash(0, 1), &Clash(0, 1)),
        accepted: false,
    },
    Case {
        shows: "numbers of two literals",
        hyps: &[HELD, NOT_HELD, AtMost(X(1), X(2)), AtMost(X(3), X(4))],
        plan: Split(Same(X(1), X(4)), &Clash(0, 1), &Clash(0, 1)),
        accepted: false,
    },
];

static NUMBER_PARTS: [Case; 5] = [
    Case {
        shows: "the parts of an order",
        hyps: &[AtMost(X(1), X(2)), AtMost(Add(&X(2), &Units(1)), X(1))],
        plan: Split(AtMost(X(1), X(2)), &Clash(1, 3), &Clash(0, 3)),
        accepted: true,
    },
    Case {
        shows: "an open second part of an order",
        hyps: &[AtMost(X(1), X(2)), AtMost(Add(&X(2), &Units(1)), X(1))],
        plan: Split(AtMost(X(1), X(2)), &Clash(1, 3), &Clash(1, 3)),
        accepted: false,
    },
    Case {
        shows: "the parts of an equality",
        hyps: &[Same(X(1), X(2)), Apart(X(2), X(1))],
        plan: Split(Same(X(1), X(2)), &Clash(1, 3), &Clash(0, 3)),
        accepted: true,
    },
    Case {
        shows: "an open first part of an equality",
        hyps: &[Same(X(1), X(2)), Apart(X(2), X(1))],
        plan: Split(Same(X(1), X(2)), &Clash(0, 3), &Clash(0, 3)),
        accepted: false,
    },
    Case {
        shows: "an open second part of an equality",
        hyps: &[Same(X(1), X(2)), Apart(X(2), X(1))],
        plan: Split(Same(X(1), X(2)), &Clash(1, 3), &Clash(1, 3)),
        accepted: false,
    },
];

static OPERANDS: [Case; 8] = [
    Case {
        shows: "operands in the first place",
        hyps: &[
            HELD,
            NOT_HELD,
            AtMost(Apply(1, &[X(1), X(2), X(5)]), Apply(1, &[X(3), X(4), X(6)])),
        ],
        plan: Split(Same(X(1), X(3)), &Clash(0, 1), &Clash(0, 1)),
        accepted: true,
    },
    Case {
        shows: "operands in the second place, exchanged",
        hyps: &[
            HELD,
            NOT_HELD,
            AtMost(Apply(1, &[X(1), X(2), X(5)]), Apply(1, &[X(3), X(4), X(6)])),
        ],
        plan: Split(Same(X(4), X(2)), &Clash(0, 1), &Clash(0, 1)),
        accepted: true,
    },
    Case {
        shows: "an order of operands",
        hyps: &[
            HELD,
            NOT_HELD,
            AtMost(Apply(1, &[X(1), X(2), X(5)]), Apply(1, &[X(3), X(4), X(6)])),
        ],
        plan: Split(AtMost(X(2), X(4)), &Clash(0, 1), &Clash(0, 1)),
        accepted: true,
    },
    Case {
        shows: "the applications themselves",
        hyps: &[
            HELD,
            NOT_HELD,
            AtMost(Apply(1, &[X(1), X(5)]), Apply(2, &[X(3), X(6)])),
        ],
        plan: Split(
            Same(Apply(1, &[X(1), X(5)]), Apply(2, &[X(3), X(6)])),
            &Clash(0, 1),
            &Clash(0, 1),
        ),
        accepted: true,
    },
    Case {
        shows: "operands in two places",
        hyps: &[
            HELD,
            NOT_HELD,
            AtMost(Apply(1, &[X(1), X(2), X(5)]), Apply(1, &[X(3), X(4), X(6)])),
        ],
        plan: Split(Same(X(1), X(4)), &Clash(0, 1), &Clash(0, 1)),
        accepted: false,
    },
    Case {
        shows: "operands of one application",
        hyps: &[
            HELD,
            NOT_HELD,
            AtMost(Apply(1, &[X(1), X(2), X(5)]), Apply(1, &[X(3), X(4), X(6)])),
        ],
        plan: Split(Same(X(1), X(2)), &Clash(0, 1), &Clash(0, 1)),
        accepted: false,
    },
    Case {
        shows: "results",
        hyps: &[
            HELD,
            NOT_HELD,
            AtMost(Apply(1, &[X(1), X(2), X(5)]), Apply(1, &[X(3), X(4), X(6)])),
        ],
        plan: Split(Same(X(5), X(6)), &Clash(0, 1), &Clash(0, 1)),
        accepted: false,
    },
    Case {
        shows: "an operand and its result",
        hyps: &[
            HELD,
            NOT_HELD,
            AtMost(Apply(1, &[X(1), X(2), X(5)]), Apply(1, &[X(3), X(4), X(6)])),
        ],
        plan: Split(AtMost(X(1), X(5)), &Clash(0, 1), &Clash(0, 1)),
        accepted: false,
    },
];

static OPERATORS: [Case; 5] = [
    Case {
        shows: "operands of two operators",
        hyps: &[
            HELD,
            NOT_HELD,
            AtMost(Apply(1, &[X(1), X(5)]), Apply(2, &[X(3), X(6)])),
        ],
        plan: Split(Same(X(1), X(3)), &Clash(0, 1), &Clash(0, 1)),
        accepted: false,
    },
    Case {
        shows: "operands where one application has more",
        hyps: &[
            HELD,
            NOT_HELD,
            AtMost(Apply(1, &[X(1), X(5)]), Apply(1, &[X(3), X(4), X(6)])),
        ],
        plan: Split(Same(X(1), X(3)), &Clash(0, 1), &Clash(0, 1)),
        accepted: true,
    },
    Case {
        shows: "a result in the place of an operand",
        hyps: &[
            HELD,
            NOT_HELD,
            AtMost(Apply(1, &[X(1), X(5)]), Apply(1, &[X(3), X(4), X(6)])),
        ],
        plan: Split(Same(X(5), X(4)), &Clash(0, 1), &Clash(0, 1)),
        accepted: false,
    },
    Case {
        shows: "operands of applications within terms",
        hyps: &[
            HELD,
            NOT_HELD,
            AtMost(
                Add(&Apply(1, &[X(1), X(5)]), &Units(1)),
                Times(2, &Apply(1, &[X(3), X(6)])),
            ),
        ],
        plan: Split(Same(X(1), X(3)), &Clash(0, 1), &Clash(0, 1)),
        accepted: true,
    },
    Case {
        shows: "what stands within the sides",
        hyps: &[
            HELD,
            NOT_HELD,
            AtMost(
                Add(&Apply(1, &[X(1), X(5)]), &Units(1)),
                Times(2, &Apply(1, &[X(3), X(6)])),
            ),
        ],
        plan: Split(
            Same(Apply(1, &[X(1), X(5)]), Apply(1, &[X(3), X(6)])),
            &Clash(0, 1),
            &Clash(0, 1),
        ),
        accepted: false,
    },
];

// The goal.
static APPLICATION: Fact = AtMost(Apply(1, &[X(3), X(6)]), Units(0));

static OPERANDS_BEHIND: [Case; 2] = [
    Case {
        shows: "operands of a hypothesis and the goal",
        hyps: &[HELD, NOT_HELD, AtMost(Apply(1, &[X(1), X(5)]), Units(0))],
        plan: Split(Same(X(1), X(3)), &Clash(0, 1), &Clash(0, 1)),
        accepted: true,
    },
    Case {
        shows: "operands of another operator than the goal's",
        hyps: &[HELD, NOT_HELD, AtMost(Apply(2, &[X(1), X(5)]), Units(0))],
        plan: Split(Same(X(1), X(3)), &Clash(0, 1), &Clash(0, 1)),
        accepted: false,
    },
];

#[test]
fn both_parts_of_a_split_end(rt: HostRuntime) -> Result<(), Fail> {
    assert_answers(&rt, rt.alloc(), &FALSE, PARTS.as_slice())
}

#[test]
fn references_are_split(rt: HostRuntime) -> Result<(), Fail> {
    assert_answers(&rt, rt.alloc(), &FALSE, REFERENCES.as_slice())
}

#[test]
fn numbers_that_are_compared_are_split(rt: HostRuntime) -> Result<(), Fail> {
    assert_answers(&rt, rt.alloc(), &FALSE, NUMBERS.as_slice())
}

#[test]
fn the_parts_assume_a_literal_and_its_opposite(rt: HostRuntime) -> Result<(), Fail> {
    assert_answers(&rt, rt.alloc(), &FALSE, NUMBER_PARTS.as_slice())
}

#[test]
fn operands_in_one_place_are_compared(rt: HostRuntime) -> Result<(), Fail> {
    assert_answers(&rt, rt.alloc(), &FALSE, OPERANDS.as_slice())
}

#[test]
fn operands_of_one_operator_are_compared(rt: HostRuntime) -> Result<(), Fail> {
    assert_answers(&rt, rt.alloc(), &FALSE, OPERATORS.as_slice())
}

#[test]
fn so_are_those_of_the_goal(rt: HostRuntime) -> Result<(), Fail> {
    assert_answers(&rt, rt.alloc(), &APPLICATION, OPERANDS_BEHIND.as_slice())
}
