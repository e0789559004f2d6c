// Assumptions with rows that are too wide.
ghost use Rattle.std.specs.Prelude.{◌≡◌, All, true, not, IfOk, MatchOption};
ghost use Rattle.lin_rows.specs.declared.WidePoint.TheVariants.{Form};
ghost use Rattle.cond_facts.specs.Decisions.{AreRowsTold, IsWideFactAt};

use cond_facts::do_rows_fit;
use lin_rows::WidePoint;
use py_base::{OutOfMemory, Place};
use std::alloc::Global;
use terms::Literal;

fn has_wide_row(alloc: Global, l: &Literal) -> Result<bool, OutOfMemory>
    ensures { IfOk result (λ b. AreRowsTold l.now (not b)) }
{
    let fit = do_rows_fit(alloc, l)?;
    Ok(!fit)
}

/// The place of the first assumption with a row outside 128 bits.
pub(crate) fn wide_fact(alloc: Global, facts: &[Literal]) -> Result<Option<usize>, OutOfMemory>
    ensures { IfOk result (λ o. MatchOption o (All (λ l. AreRowsTold l true) facts.now) (IsWideFactAt facts.now)) }
{
    for place in 0..facts.len() {
        if has_wide_row(alloc, &facts[place])? {
            return Ok(Some(place));
        }
    }
    Ok(None)
}

/// The wide form of the literal of this number.
pub(crate) fn wide_form(number: u32) -> WidePoint
    ensures { result ≡ Form (record { line = 0; col = number }) }
{
    WidePoint::Form(Place {
        line: 0,
        col: number,
    })
}
