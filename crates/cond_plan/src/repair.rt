// Applications whose results aren't equal at a point, though their operands are.
ghost use Rattle.std.specs.Prelude.{◌≡◌, ◌<◌, ℕ, length, MatchOption};
ghost use Rattle.cond_plan.specs.PointValues.{IsMet};
ghost use Rattle.cond_plan.specs.Needs.{AreCongruentAt, AreOperandsSettled, IsRepair};
ghost use Rattle.cond_plan.specs.Plans.{AreOfNumbers};
ghost use Rattle.cond_plan.specs.Known.{AreCongruentFrom, repair_of};

use crate::asked::{Asked, asked_of};
use crate::plan::Applied;
use lin_rows::Point;
use terms::Literal;

/// What two applications ask for.
#[derive(Clone, Copy, Debug, PartialEq, Eq, Drop)]
pub enum Repair {
    /// That their results are equal. They are given by their numbers.
    Congruence(usize, usize),
    /// A split on whether the operands in a place are equal.
    Operand(usize, usize, usize),
}

/// What two applications of one operator ask for, where their operands aren't known to differ and their
/// results aren't known to be equal.
pub fn first_repair(p: &Point, facts: &[Literal], applications: &[Applied]) -> Option<Repair>
    requires met { IsMet facts.now p.now }
    requires numbers { AreOfNumbers applications.now }
    requires settled { AreOperandsSettled p.now facts.now applications.now }
    ensures { MatchOption result (AreCongruentAt p.now applications.now) (IsRepair facts.now applications.now) }
{
    for i in 0..applications.len() {
        if let Some(repair) = repair_with(p, facts, applications, i) {
            return Some(repair);
        }
    }
    None
}

// What an application and a later one ask for.
fn repair_with(p: &Point, facts: &[Literal], applications: &[Applied], i: usize) -> Option<Repair>
    requires met { IsMet facts.now p.now }
    requires numbers { AreOfNumbers applications.now }
    requires settled { AreOperandsSettled p.now facts.now applications.now }
    requires within { i < length applications.now }
    ensures { MatchOption result (AreCongruentFrom p.now applications.now i) (IsRepair facts.now applications.now) }
{
    for j in i + 1..applications.len() {
        if let Some(asked) = asked_of(p, facts, &applications[i], &applications[j]) {
            return Some(numbered(i, j, asked));
        }
    }
    None
}

fn numbered(i: usize, j: usize, asked: Asked) -> Repair
    ensures { result ≡ repair_of i j asked }
{
    match asked {
        Asked::Results => Repair::Congruence(i, j),
        Asked::Operand(k) => Repair::Operand(i, j, k),
    }
}
