// Whether two terms are one.
ghost use Rattle.std.specs.Prelude.{◌≡◌};
ghost use Rattle.terms.specs.Sameness.{same_term};

use terms::Term;

// The test of equal terms, as definitions compute it.
pub(crate) fn same_term(s: &Term, t: &Term) -> bool
    ensures { result ≡ same_term s.now t.now }
{
    s.is_same(t)
}
