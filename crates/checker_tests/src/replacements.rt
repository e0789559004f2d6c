// Replacements: by which assumptions, into which, and where in them. The hypotheses are numbered from 0, then comes the
// opposite of the goal, and behind it what replacements add.
use crate::plans::Fact::{Apart, AtMost, Flag, Same};
use crate::plans::Plan::{Clash, Replace};
use crate::plans::Side::{Add, Apply, Nil, R, Reference, Times, Units, X};
use crate::plans::{Case, FALSE, HELD, NOT_HELD, assert_answers};
use std::test::Fail;

static WAYS: [Case; 9] = [
    Case {
        shows: "forth",
        hyps: &[Same(R(1), R(2)), Same(R(1), R(3)), Apart(R(2), R(3))],
        plan: Replace(0, 1, &Clash(2, 4)),
        accepted: true,
    },
    Case {
        shows: "back, where the left side doesn't stand",
        hyps: &[Same(R(2), R(1)), Same(R(1), R(3)), Apart(R(2), R(3))],
        plan: Replace(0, 1, &Clash(2, 4)),
        accepted: true,
    },
    Case {
        shows: "forth, where both sides stand",
        hyps: &[
            Same(X(1), X(2)),
            AtMost(X(1), X(2)),
            AtMost(Add(&X(2), &Units(1)), X(2)),
        ],
        plan: Replace(0, 1, &Clash(2, 4)),
        accepted: true,
    },
    Case {
        shows: "back, where both sides stand",
        hyps: &[
            Same(X(1), X(2)),
            AtMost(X(1), X(2)),
            AtMost(Add(&X(1), &Units(1)), X(1)),
        ],
        plan: Replace(0, 1, &Clash(2, 4)),
        accepted: false,
    },
    Case {
        shows: "nothing, where no side stands",
        hyps: &[Same(R(1), R(2)), Same(R(3), R(4)), Apart(R(3), R(4))],
        plan: Replace(0, 1, &Clash(2, 4)),
        accepted: true,
    },
    Case {
        shows: "an equality into itself",
        hyps: &[Same(R(1), R(2)), Apart(R(2), R(2))],
        plan: Replace(0, 0, &Clash(1, 3)),
        accepted: true,
    },
    Case {
        shows: "the reference 0 for a symbol by None",
        hyps: &[Same(R(1), Nil), Apart(R(1), Reference(0))],
        plan: Replace(0, 1, &Clash(3, 3)),
        accepted: true,
    },
    Case {
        shows: "a symbol for the reference 0 by None",
        hyps: &[Same(Nil, R(1)), Apart(R(2), Reference(0)), Same(R(2), R(1))],
        plan: Replace(0, 1, &Clash(2, 4)),
        accepted: true,
    },
    Case {
        shows: "an assumption that wasn't replaced",
        hyps: &[Same(R(1), R(2)), Same(R(1), R(3)), Apart(R(2), R(3))],
        plan: Replace(0, 1, &Clash(1, 2)),
        accepted: false,
    },
];

static BY_WHAT: [Case; 11] = [
    Case {
        shows: "an equality of numbers",
        hyps: &[Same(X(1), X(2)), HELD, NOT_HELD],
        plan: Replace(0, 1, &Clash(1, 2)),
        accepted: true,
    },
    Case {
        shows: "an equality of references",
        hyps: &[Same(R(1), R(2)), HELD, NOT_HELD],
        plan: Replace(0, 1, &Clash(1, 2)),
        accepted: true,
    },
    Case {
        shows: "numbers apart",
        hyps: &[Apart(X(1), X(2)), HELD, NOT_HELD],
        plan: Replace(0, 1, &Clash(1, 2)),
        accepted: false,
    },
    Case {
        shows: "an order",
        hyps: &[AtMost(X(1), X(2)), HELD, NOT_HELD],
        plan: Replace(0, 1, &Clash(1, 2)),
        accepted: false,
    },
    Case {
        shows: "a flag",
        hyps: &[Flag(1, true), HELD, NOT_HELD],
        plan: Replace(0, 1, &Clash(1, 2)),
        accepted: false,
    },
    Case {
        shows: "into the opposite of the goal",
        hyps: &[Same(X(1), X(2)), HELD, NOT_HELD],
        plan: Replace(0, 3, &Clash(1, 2)),
        accepted: true,
    },
    Case {
        shows: "the opposite of the goal",
        hyps: &[Same(X(1), X(2)), HELD, NOT_HELD],
        plan: Replace(3, 0, &Clash(1, 2)),
        accepted: false,
    },
    Case {
        shows: "into no assumption",
        hyps: &[Same(X(1), X(2)), HELD, NOT_HELD],
        plan: Replace(0, 4, &Clash(1, 2)),
        accepted: false,
    },
    Case {
        shows: "no assumption",
        hyps: &[Same(X(1), X(2)), HELD, NOT_HELD],
        plan: Replace(4, 0, &Clash(1, 2)),
        accepted: false,
    },
    Case {
        shows: "into what was added",
        hyps: &[Same(X(1), X(2)), HELD, NOT_HELD],
        plan: Replace(0, 1, &Replace(0, 4, &Clash(1, 2))),
        accepted: true,
    },
    Case {
        shows: "into what isn't added yet",
        hyps: &[Same(X(1), X(2)), HELD, NOT_HELD],
        plan: Replace(0, 1, &Replace(0, 5, &Clash(1, 2))),
        accepted: false,
    },
];

static PLACES: [Case; 9] = [
    Case {
        shows: "both places of a side",
        hyps: &[
            Same(X(1), X(2)),
            AtMost(Add(&X(1), &X(1)), X(3)),
            AtMost(Add(&X(3), &Units(1)), Add(&X(2), &X(2))),
        ],
        plan: Replace(0, 1, &Clash(2, 4)),
        accepted: true,
    },
    Case {
        shows: "the first place alone",
        hyps: &[
            Same(X(1), X(2)),
            AtMost(Add(&X(1), &X(1)), X(3)),
            AtMost(Add(&X(3), &Units(1)), Add(&X(2), &X(1))),
        ],
        plan: Replace(0, 1, &Clash(2, 4)),
        accepted: false,
    },
    Case {
        shows: "the second place alone",
        hyps: &[
            Same(X(1), X(2)),
            AtMost(Add(&X(1), &X(1)), X(3)),
            AtMost(Add(&X(3), &Units(1)), Add(&X(1), &X(2))),
        ],
        plan: Replace(0, 1, &Clash(2, 4)),
        accepted: false,
    },
    Case {
        shows: "both sides",
        hyps: &[
            Same(X(1), X(2)),
            AtMost(X(1), Add(&X(1), &Units(5))),
            AtMost(Add(&Add(&X(2), &Units(5)), &Units(1)), X(2)),
        ],
        plan: Replace(0, 1, &Clash(2, 4)),
        accepted: true,
    },
    Case {
        shows: "the left side alone",
        hyps: &[
            Same(X(1), X(2)),
            AtMost(X(1), Add(&X(1), &Units(5))),
            AtMost(Add(&Add(&X(1), &Units(5)), &Units(1)), X(2)),
        ],
        plan: Replace(0, 1, &Clash(2, 4)),
        accepted: false,
    },
    Case {
        shows: "the right side alone",
        hyps: &[
            Same(X(1), X(2)),
            AtMost(X(1), Add(&X(1), &Units(5))),
            AtMost(Add(&Add(&X(2), &Units(5)), &Units(1)), X(1)),
        ],
        plan: Replace(0, 1, &Clash(2, 4)),
        accepted: false,
    },
    Case {
        shows: "the operand and the result of an application",
        hyps: &[
            Same(X(1), X(2)),
            AtMost(Apply(1, &[X(1), X(1)]), X(3)),
            AtMost(Add(&X(3), &Units(1)), Apply(1, &[X(2), X(2)])),
        ],
        plan: Replace(0, 1, &Clash(2, 4)),
        accepted: true,
    },
    Case {
        shows: "the operand of an application alone",
        hyps: &[
            Same(X(1), X(2)),
            AtMost(Apply(1, &[X(1), X(1)]), X(3)),
            AtMost(Add(&X(3), &Units(1)), Apply(1, &[X(2), X(1)])),
        ],
        plan: Replace(0, 1, &Clash(2, 4)),
        accepted: false,
    },
    Case {
        shows: "within a multiple",
        hyps: &[
            Same(X(1), X(2)),
            AtMost(Times(3, &X(1)), X(3)),
            AtMost(Add(&X(3), &Units(1)), Times(3, &X(2))),
        ],
        plan: Replace(0, 1, &Clash(2, 4)),
        accepted: true,
    },
];

static WHAT: [Case; 6] = [
    Case {
        shows: "a sum for a symbol",
        hyps: &[
            Same(X(1), Add(&X(2), &X(4))),
            AtMost(X(1), X(3)),
            AtMost(Add(&X(3), &Units(1)), Add(&X(2), &X(4))),
        ],
        plan: Replace(0, 1, &Clash(2, 4)),
        accepted: true,
    },
    Case {
        shows: "a symbol for a sum within a term",
        hyps: &[
            Same(Add(&X(1), &Units(3)), X(2)),
            AtMost(Add(&Add(&X(1), &Units(3)), &Units(1)), X(4)),
            AtMost(X(4), X(2)),
        ],
        plan: Replace(0, 1, &Clash(2, 4)),
        accepted: true,
    },
    Case {
        shows: "a symbol for another sum of its value",
        hyps: &[
            Same(Add(&X(1), &Units(3)), X(2)),
            AtMost(Add(&Units(3), &X(1)), X(4)),
            AtMost(Add(&X(4), &Units(1)), X(2)),
        ],
        plan: Replace(0, 1, &Clash(2, 4)),
        accepted: false,
    },
    Case {
        shows: "a symbol in what is put for it",
        hyps: &[
            Same(X(1), Add(&X(1), &X(2))),
            AtMost(X(1), X(3)),
            AtMost(Add(&X(3), &Units(1)), Add(&X(1), &X(2))),
        ],
        plan: Replace(0, 1, &Clash(2, 4)),
        accepted: true,
    },
    Case {
        shows: "a flag stays",
        hyps: &[Same(X(1), X(2)), HELD, NOT_HELD],
        plan: Replace(0, 1, &Clash(2, 4)),
        accepted: true,
    },
    Case {
        shows: "a flag isn't turned",
        hyps: &[Same(X(1), X(2)), HELD, NOT_HELD],
        plan: Replace(0, 1, &Clash(1, 4)),
        accepted: false,
    },
];

static IN_TURN: [Case; 8] = [
    Case {
        shows: "an equality into numbers apart",
        hyps: &[Same(R(1), R(2)), Same(R(2), R(3)), Apart(R(1), R(3))],
        plan: Replace(0, 2, &Clash(1, 4)),
        accepted: true,
    },
    Case {
        shows: "an equality into an equality",
        hyps: &[Same(R(1), R(2)), Same(R(2), R(3)), Apart(R(1), R(3))],
        plan: Replace(1, 0, &Clash(2, 4)),
        accepted: true,
    },
    Case {
        shows: "by a replaced equality",
        hyps: &[Same(R(1), R(2)), Same(R(2), R(3)), Apart(R(1), R(3))],
        plan: Replace(1, 0, &Replace(4, 2, &Clash(5, 5))),
        accepted: true,
    },
    Case {
        shows: "by an equality before it is replaced",
        hyps: &[Same(R(1), R(2)), Same(R(2), R(3)), Apart(R(1), R(3))],
        plan: Replace(1, 0, &Replace(0, 2, &Clash(5, 5))),
        accepted: false,
    },
    Case {
        shows: "a symbol, and then the symbol put for it",
        hyps: &[
            Same(X(1), X(2)),
            Same(X(2), X(3)),
            AtMost(X(1), X(4)),
            AtMost(Add(&X(4), &Units(1)), X(3)),
        ],
        plan: Replace(0, 2, &Replace(1, 5, &Clash(3, 6))),
        accepted: true,
    },
    Case {
        shows: "the symbol put for it before the symbol",
        hyps: &[
            Same(X(1), X(2)),
            Same(X(2), X(3)),
            AtMost(X(1), X(4)),
            AtMost(Add(&X(4), &Units(1)), X(3)),
        ],
        plan: Replace(1, 2, &Replace(0, 5, &Clash(3, 6))),
        accepted: false,
    },
    Case {
        shows: "a sum that a replacement made",
        hyps: &[
            Same(X(1), X(2)),
            Same(Add(&X(2), &Units(1)), X(3)),
            AtMost(Add(&X(1), &Units(1)), X(4)),
            AtMost(Add(&X(4), &Units(1)), X(3)),
        ],
        plan: Replace(0, 2, &Replace(1, 5, &Clash(3, 6))),
        accepted: true,
    },
    Case {
        shows: "a sum that isn't made yet",
        hyps: &[
            Same(X(1), X(2)),
            Same(Add(&X(2), &Units(1)), X(3)),
            AtMost(Add(&X(1), &Units(1)), X(4)),
            AtMost(Add(&X(4), &Units(1)), X(3)),
        ],
        plan: Replace(1, 2, &Replace(0, 5, &Clash(3, 6))),
        accepted: false,
    },
];

#[test]
fn sides_are_put_forth_or_back(rt: HostRuntime) -> Result<(), Fail> {
    assert_answers(&rt, rt.alloc(), &FALSE, WAYS.as_slice())
}

#[test]
fn equalities_are_put_into_assumptions(rt: HostRuntime) -> Result<(), Fail> {
    assert_answers(&rt, rt.alloc(), &FALSE, BY_WHAT.as_slice())
}

#[test]
fn each_place_is_replaced(rt: HostRuntime) -> Result<(), Fail> {
    assert_answers(&rt, rt.alloc(), &FALSE, PLACES.as_slice())
}

#[test]
fn whole_terms_are_replaced(rt: HostRuntime) -> Result<(), Fail> {
    assert_answers(&rt, rt.alloc(), &FALSE, WHAT.as_slice())
}

#[test]
fn replacements_follow_one_another(rt: HostRuntime) -> Result<(), Fail> {
    assert_answers(&rt, rt.alloc(), &FALSE, IN_TURN.as_slice())
}
