// Sums of two rows by multipliers.
ghost use Rattle.std.specs.Prelude.{◌≡◌, [], ◌+◌, ◌<◌, ◌+ℤ◌, ◌*ℤ◌, length, IfNone, IfSome, IfOk, OnOk, IfErr};
ghost use Rattle.std.specs.Option.{SomeIff};
ghost use Rattle.lin_rows.specs.Rows.{MixFits, IsSum, SumFits};
ghost use Rattle.lin_rows.specs.Merging.{TakesLeast};
ghost use Rattle.lin_rows.specs.declared.fault.RowFault.TheVariants.{Wide};

use crate::fault::RowFault;
use crate::row::Row;
use crate::terms::Terms;
use std::alloc::Global;

/// `k * a + l * b`, where the products and the sum are within 128 bits.
fn mix(k: i128, a: i128, l: i128, b: i128) -> Option<i128>
    ensures { SomeIff result (MixFits k a l b) (k *ℤ a +ℤ l *ℤ b) }
{
    match (k.checked_mul(a), l.checked_mul(b)) {
        (Some(left), Some(right)) => left.checked_add(right),
        _ => None,
    }
}

/// The least variable of two lists of terms, its coefficients, and the terms after it.
#[derive(Clone, Copy)]
struct Next<'a> {
    var: u32,
    left: i128,
    right: i128,
    lefts: &'a [(u32, i128)],
    rights: &'a [(u32, i128)],
}

fn least<'a>(a: &'a [(u32, i128)], b: &'a [(u32, i128)]) -> Option<Next<'a>>
    ensures none { IfNone result ((a.now ≡ []) × (b.now ≡ [])) }
    ensures least { IfSome result (λ n. TakesLeast a.now b.now n.var n.left n.right n.lefts.now n.rights.now) }
    ensures shorter { IfSome result (λ n. length n.lefts.now + length n.rights.now < length a.now + length b.now) }
{
    match a {
        [] => match b {
            [] => None,
            [(w, y), rights @ ..] => Some(Next {
                var: *w,
                left: 0,
                right: *y,
                lefts: a,
                rights,
            }),
        },
        [(v, x), lefts @ ..] => match b {
            [] => Some(Next {
                var: *v,
                left: *x,
                right: 0,
                lefts,
                rights: b,
            }),
            [(w, y), rights @ ..] => {
                if *v < *w {
                    Some(Next {
                        var: *v,
                        left: *x,
                        right: 0,
                        lefts,
                        rights: b,
                    })
                } else if *w < *v {
                    Some(Next {
                        var: *w,
                        left: 0,
                        right: *y,
                        lefts: a,
                        rights,
                    })
                } else {
                    Some(Next {
                        var: *v,
                        left: *x,
                        right: *y,
                        lefts,
                        rights,
                    })
                }
            }
        },
    }
}

/// `by_left` times one row and `by_right` times another.
pub fn combine(
    alloc: Global,
    by_left: i128,
    a: &Row,
    by_right: i128,
    b: &Row,
) -> Result<Row, RowFault>
    ensures sum { IfOk result (λ row. IsSum by_left by_right a.now b.now row) }
    ensures fits { OnOk result (SumFits by_left by_right a.now b.now) }
    ensures wide { IfErr result (λ e. e ≡ Wide → ¬ (SumFits by_left by_right a.now b.now)) }
{
    let mut coefs = Terms::new(alloc);
    let mut left = a.coefs.as_slice();
    let mut right = b.coefs.as_slice();
    'terms: while let Some(next) = least(left, right) {
        let Some(coef) = mix(by_left, next.left, by_right, next.right) else {
            return Err(RowFault::Wide);
        };
        if coef != 0 {
            coefs.push(next.var, coef)?;
        }
        left = next.lefts;
        right = next.rights;
    }
    match mix(by_left, a.bound, by_right, b.bound) {
        None => Err(RowFault::Wide),
        Some(bound) => Ok(Row { coefs, bound }),
    }
}
