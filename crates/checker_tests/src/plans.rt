// Conditions and derivations as plain data, of which tables are made, and how they are built.
use lin_rows::{ComboStep, Row, RowFault, Terms, combine};
use proof_checker::{Condition, Derivation, check_derivation};
use sqlite_items::{Boxed, Items};
use std::alloc::Global;
use std::process::Abort;
use std::test::Fail;
use terms::{Literal, Term};

/// A term.
#[derive(Clone, Copy)]
pub enum Side {
    /// The number symbol of this number.
    X(u32),
    /// A whole number of units.
    Units(i128),
    Add(&'static Side, &'static Side),
    Times(i128, &'static Side),
    /// An operator's number, its operands, and last the symbol of its result.
    Apply(u16, &'static [Side]),
    /// The reference symbol of this number.
    R(u32),
    /// The reference of this number.
    Reference(u32),
    Nil,
}

/// A literal.
#[derive(Clone, Copy)]
pub enum Fact {
    AtMost(Side, Side),
    Same(Side, Side),
    Apart(Side, Side),
    Flag(u32, bool),
}

/// A sum of two rows: their numbers and multipliers, and the terms and the bound that it is said to have.
#[derive(Clone, Copy)]
pub struct Step(
    pub [u32; 2],
    pub [i128; 2],
    pub &'static [(u32, i128)],
    pub i128,
);

/// A derivation.
#[derive(Clone, Copy)]
pub enum Plan {
    Split(Fact, &'static Plan, &'static Plan),
    Replace(u32, u32, &'static Plan),
    Congruent(u32, u32, &'static Plan),
    Clash(u32, u32),
    Combine(&'static [Step]),
}

/// A derivation of a goal from hypotheses, and whether it is accepted.
#[derive(Clone, Copy)]
pub struct Case {
    pub shows: &'static str,
    pub hyps: &'static [Fact],
    pub plan: Plan,
    pub accepted: bool,
}

/// A goal that is never true. Its opposite, `0 + 1 <= 1`, always is, so the hypotheses have to be refuted by themselves.
pub static FALSE: Fact = Fact::AtMost(Side::Units(1), Side::Units(0));

/// A flag and its opposite, which clash.
pub const HELD: Fact = Fact::Flag(0, true);

pub const NOT_HELD: Fact = Fact::Flag(0, false);

pub fn add(alloc: Global, a: Term, b: Term) -> Result<Term, RowFault> {
    Ok(Term::Add(Boxed::new(alloc, a)?, Boxed::new(alloc, b)?))
}

fn times(alloc: Global, k: i128, a: Term) -> Result<Term, RowFault> {
    Ok(Term::Scale(k, Boxed::new(alloc, a)?))
}

#[cycle(terms)]
fn term(alloc: Global, side: &Side) -> Result<Term, RowFault> {
    match side {
        Side::X(n) => Ok(Term::Sym(*n)),
        Side::Units(z) => Ok(Term::Lit(*z)),
        Side::Add(a, b) => add(alloc, term(alloc, *a)?, term(alloc, *b)?),
        Side::Times(k, a) => times(alloc, *k, term(alloc, *a)?),
        Side::Apply(operator, all) => {
            let mut terms = Items::new(alloc);
            for a in *all {
                terms.push(term(alloc, a)?)?;
            }
            Ok(Term::App(*operator, terms))
        }
        Side::R(n) => Ok(Term::RefSym(*n)),
        Side::Reference(n) => Ok(Term::RefLit(*n)),
        Side::Nil => Ok(Term::Nil),
    }
}

fn literal(alloc: Global, fact: &Fact) -> Result<Literal, RowFault> {
    match fact {
        Fact::AtMost(a, b) => Ok(Literal::AtMost(term(alloc, a)?, term(alloc, b)?)),
        Fact::Same(a, b) => Ok(Literal::Same(term(alloc, a)?, term(alloc, b)?)),
        Fact::Apart(a, b) => Ok(Literal::Apart(term(alloc, a)?, term(alloc, b)?)),
        Fact::Flag(n, held) => Ok(Literal::Flag(*n, *held)),
    }
}

fn literals(alloc: Global, facts: &[Fact]) -> Result<Items<Literal>, RowFault> {
    let mut all = Items::new(alloc);
    for fact in facts {
        all.push(literal(alloc, fact)?)?;
    }
    Ok(all)
}

/// The row of these terms, whose coefficients aren't 0, and this bound.
fn row(alloc: Global, terms: &[(u32, i128)], bound: i128) -> Result<Row, RowFault> {
    let mut sum = Row {
        coefs: Terms::new(alloc),
        bound,
    };
    for (var, coef) in terms {
        let mut coefs = Terms::new(alloc);
        if *coef != 0 {
            coefs.push(*var, *coef)?;
        }
        sum = combine(alloc, 1, &sum, 1, &Row { coefs, bound: 0 })?;
    }
    Ok(sum)
}

fn sums(alloc: Global, steps: &[Step]) -> Result<Items<ComboStep>, RowFault> {
    let mut all = Items::new(alloc);
    for step in steps {
        all.push(ComboStep {
            left: step.0[0],
            right: step.0[1],
            by_left: step.1[0],
            by_right: step.1[1],
            row: row(alloc, step.2, step.3)?,
        })?;
    }
    Ok(all)
}

/// A split on a literal.
pub fn split(
    alloc: Global,
    l: Literal,
    held: Derivation,
    other: Derivation,
) -> Result<Derivation, RowFault> {
    Ok(Derivation::Split(l, Boxed::new(alloc, held)?, Boxed::new(alloc, other)?))
}

/// A replacement, and what follows.
pub fn replace(alloc: Global, i: u32, j: u32, rest: Derivation) -> Result<Derivation, RowFault> {
    Ok(Derivation::Replace(i, j, Boxed::new(alloc, rest)?))
}

fn congruent(alloc: Global, i: u32, j: u32, rest: Derivation) -> Result<Derivation, RowFault> {
    Ok(Derivation::Congruent(i, j, Boxed::new(alloc, rest)?))
}

#[cycle(plans)]
fn derivation(alloc: Global, plan: &Plan) -> Result<Derivation, RowFault> {
    match plan {
        Plan::Split(fact, held, other) => split(
            alloc,
            literal(alloc, fact)?,
            derivation(alloc, *held)?,
            derivation(alloc, *other)?,
        ),
        Plan::Replace(i, j, rest) => replace(alloc, *i, *j, derivation(alloc, *rest)?),
        Plan::Congruent(i, j, rest) => congruent(alloc, *i, *j, derivation(alloc, *rest)?),
        Plan::Clash(i, j) => Ok(Derivation::Clash(*i, *j)),
        Plan::Combine(steps) => Ok(Derivation::Combine(sums(alloc, *steps)?)),
    }
}

/// The condition that a goal follows from hypotheses.
pub fn condition(alloc: Global, hyps: &[Fact], goal: &Fact) -> Result<Condition, RowFault> {
    let hyps = literals(alloc, hyps)?;
    Ok(Condition {
        hyps,
        goal: literal(alloc, goal)?,
    })
}

/// Whether the case's derivation of the goal is accepted.
fn answer(alloc: Global, goal: &Fact, case: &Case) -> Result<bool, RowFault> {
    let c = condition(alloc, case.hyps, goal)?;
    Ok(check_derivation(&c, &derivation(alloc, &case.plan)?))
}

/// Asserts that each case has its answer.
pub fn assert_answers(
    rt: &impl Abort,
    alloc: Global,
    goal: &Fact,
    cases: &[Case],
) -> Result<(), Fail> {
    for case in cases {
        assert_eq!(rt; answer(alloc, goal, case)?, case.accepted, "{}", case.shows);
    }
    Ok(())
}
