// What a condition compares.
ghost use Rattle.std.specs.Prelude.{◌≡◌, ◌∷◌, [], ◌++◌, IfOk, OnOk};
ghost use Rattle.proof_checker.specs.Conditions.{IsSorted, literals_of};
ghost use Rattle.cond_plan.specs.Listed.{comparison, of_sides, of_literals, of_operands, of_two, of_others, of_applications};
ghost use Rattle.cond_plan.specs.Plans.{AreApplications, AreComparisons};

use crate::plan::{Applied, Comparison};
use crate::sides::{number, sides};
use proof_checker::Condition;
use py_base::OutOfMemory;
use sqlite_items::Items;
use std::alloc::Global;
use terms::{Literal, Term};

// Adds the comparison of two terms.
fn add(
    alloc: Global,
    a: &Term,
    b: &Term,
    place: u32,
    listed: &mut Items<Comparison>,
) -> Result<(), OutOfMemory>
    ensures { OnOk result (listed.new ≡ listed.old ++ comparison place a.now b.now ∷ []) }
{
    let left = a.copy(alloc)?;
    let right = b.copy(alloc)?;
    listed.push(Comparison { left, right, place })?;
    Ok(())
}

// Adds the comparison of the sides of a literal, where they are of numbers.
fn add_sides(
    alloc: Global,
    l: &Literal,
    place: usize,
    listed: &mut Items<Comparison>,
) -> Result<(), OutOfMemory>
    ensures { OnOk result (listed.new ≡ listed.old ++ of_sides place l.now) }
{
    match sides(l) {
        None => Ok(()),
        Some((a, b)) => {
            if a.is_of_numbers() && b.is_of_numbers() {
                add(alloc, a, b, number(place)?, listed)
            } else {
                Ok(())
            }
        }
    }
}

// The comparisons of the sides of literals.
fn of_all_literals(alloc: Global, c: &Condition) -> Result<Items<Comparison>, OutOfMemory>
    ensures { IfOk result (λ listed. listed ≡ of_literals 0 (literals_of c.now)) }
{
    let hyps = c.hyps.as_slice();
    let mut listed = Items::new(alloc);
    for (i, l) in hyps.iter().enumerate() {
        add_sides(alloc, l, i, &mut listed)?;
    }
    add_sides(alloc, &c.goal, hyps.len(), &mut listed)?;
    Ok(listed)
}

// Adds the comparisons of operands, place by place.
fn add_operands(
    alloc: Global,
    xs: &[Term],
    ys: &[Term],
    place: u32,
    listed: &mut Items<Comparison>,
) -> Result<(), OutOfMemory>
    ensures { OnOk result (listed.new ≡ listed.old ++ of_operands place xs.now ys.now) }
{
    match xs {
        [] => Ok(()),
        [x, more @ ..] => match ys {
            [] => Ok(()),
            [y, others @ ..] => {
                add(alloc, x, y, place, listed)?;
                add_operands(alloc, more, others, place, listed)
            }
        },
    }
}

// Adds the comparisons of the operands of two applications, where they are of one operator.
fn add_two(
    alloc: Global,
    f: &Applied,
    g: &Applied,
    listed: &mut Items<Comparison>,
) -> Result<(), OutOfMemory>
    ensures { OnOk result (listed.new ≡ listed.old ++ of_two f.now g.now) }
{
    if f.operator == g.operator {
        add_operands(
            alloc,
            f.operands.as_slice(),
            g.operands.as_slice(),
            f.place,
            listed,
        )
    } else {
        Ok(())
    }
}

// Adds the comparisons of the operands of an application and others.
fn add_others(
    alloc: Global,
    f: &Applied,
    others: &[Applied],
    listed: &mut Items<Comparison>,
) -> Result<(), OutOfMemory>
    ensures { OnOk result (listed.new ≡ listed.old ++ of_others f.now others.now) }
{
    for g in others {
        add_two(alloc, f, g, listed)?;
    }
    Ok(())
}

/// The comparisons of a condition with these applications.
pub(crate) fn comparisons_of(
    alloc: Global,
    c: &Condition,
    applications: &[Applied],
) -> Result<Items<Comparison>, OutOfMemory>
    requires sorted { IsSorted c.now }
    requires applications { AreApplications c.now applications.now }
    ensures { IfOk result (AreComparisons c.now applications.now) }
{
    let mut listed = of_all_literals(alloc, c)?;
    for (i, f) in applications.iter().enumerate() {
        add_others(alloc, f, &applications[i + 1..], &mut listed)?;
    }
    Ok(listed)
}
