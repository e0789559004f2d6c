// The sides of literals, and the numbers of literals.
ghost use Rattle.std.specs.Prelude.{◌≡◌, Some, None, IfOk, MatchOption};
ghost use Rattle.terms.specs.Fitting.{sides_of};

use py_base::OutOfMemory;
use terms::{Literal, Term};

/// The sides of a literal.
pub(crate) fn sides<'a>(l: &'a Literal) -> Option<(&'a Term, &'a Term)>
    ensures { MatchOption result (sides_of l.now ≡ None) (λ s. sides_of l.now ≡ Some (s.0.now, s.1.now)) }
{
    match l {
        Literal::AtMost(a, b) => Some((a, b)),
        Literal::Same(a, b) => Some((a, b)),
        Literal::Apart(a, b) => Some((a, b)),
        Literal::Flag(_, _) => None,
    }
}

/// The number of a literal.
pub(crate) fn number(place: usize) -> Result<u32, OutOfMemory>
    ensures { IfOk result (λ n. n ≡ place) }
{
    u32::try_from(place).map_err(|_| OutOfMemory)
}
