// Lists, from their heads.
ghost use Rattle.std.specs.Prelude.{◌≡◌, [], ◌∷◌, MatchOption};

/// The first of a list, and those behind it.
pub fn split<T>(xs: &[T]) -> Option<(&T, &[T])>
    ensures { MatchOption result (xs.now ≡ []) (λ x. xs.now ≡ x.0.now ∷ x.1.now) }
{
    match xs {
        [] => None,
        [first, rest @ ..] => Some((first, rest)),
    }
}
