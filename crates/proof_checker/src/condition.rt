// Conditions.
ghost use Rattle.std.specs.Prelude.{◌↔◌, IsTrue};
ghost use Rattle.proof_checker.specs.Conditions.{IsSorted};

use sqlite_items::Items;
use terms::Literal;

/// Hypotheses, and a goal that is to follow from them.
#[derive(Debug, Drop)]
pub struct Condition {
    pub hyps: Items<Literal>,
    pub goal: Literal,
}

impl Condition {
    /// Whether each of its literals is sorted.
    pub fn is_sorted(&self) -> bool
        ensures { IsTrue result ↔ IsSorted self.now }
    {
        for l in self.hyps.as_slice() {
            if !l.is_sorted() {
                return false;
            }
        }
        self.goal.is_sorted()
    }
}

/// Numbers, references and flags for symbols. What isn't listed is 0 or false.
#[derive(Debug, Drop)]
pub struct Valuation {
    /// The unit, of which numbers are so many parts.
    pub q: i128,
    pub nums: Items<(u32, i128)>,
    pub refs: Items<(u32, u32)>,
    pub flags: Items<(u32, bool)>,
}
