// The linear forms of terms.
ghost use Rattle.std.specs.Prelude.{◌≡◌, Err, IfOk, OnOk, IfErr, map, All, pos};
ghost use Rattle.lin_rows.specs.Rows as rows;
ghost use Rattle.lin_rows.specs.declared.RowFault.TheVariants.{Wide, OutOfMemory};
ghost use Rattle.terms.specs.Forms.{form_of, form_in, form_units, form_symbol, last_form, AllFormsFit};
ghost use Rattle.terms.specs.FormAnswers.{linear_in, row_in, form_mix, form_row, Answers, AnswersSum, AnswersMultiple};

use crate::linear::Linear;
use crate::term::Term;
use lin_rows::{Row, RowFault, Terms, combine};
use sqlite_items::Items;
use std::alloc::Global;

/// The linear form of a term.
pub fn normal(alloc: Global, t: &Term) -> Result<Linear, RowFault>
    ensures form { IfOk result (λ l. form_in l ≡ form_of t.now) }
    ensures fits { OnOk result (AllFormsFit t.now) }
    ensures wide { IfErr result (λ e. e ≡ Wide → ¬ (AllFormsFit t.now)) }
{
    t.linear(alloc)
}

impl Term {
    #[cycle(linear)]
    fn linear(&self, alloc: Global) -> Result<Linear, RowFault>
        ensures { Answers (form_of self.now) (AllFormsFit self.now) result }
    {
        match self {
            Self::Sym(n) => symbol(alloc, *n),
            Self::Lit(z) => Ok(units(alloc, *z)),
            Self::Add(a, b) => sum(alloc, a.get().linear(alloc), b.get().linear(alloc)),
            Self::Scale(k, a) => multiple(alloc, *k, a.get().linear(alloc)),
            Self::App(_, all) => last(all, alloc),
            Self::RefSym(_) => Ok(units(alloc, 0)),
            Self::RefLit(_) => Ok(units(alloc, 0)),
            Self::Nil => Ok(units(alloc, 0)),
        }
    }
}

// The linear form of the last term, where those of all fit.
#[cycle(linear)]
fn last(all: &Items<Term>, alloc: Global) -> Result<Linear, RowFault>
    ensures { Answers (last_form (map form_of all.now)) (All AllFormsFit all.now) result }
{
    let mut form = units(alloc, 0);
    for t in all.as_slice() {
        match t.linear(alloc) {
            Ok(next) => form = next,
            Err(e) => return Err(e),
        }
    }
    Ok(form)
}

fn units(alloc: Global, z: i128) -> Linear
    ensures { form_in result ≡ form_units z }
{
    Linear {
        coefs: Terms::new(alloc),
        bound: z,
    }
}

fn symbol(alloc: Global, n: u32) -> Result<Linear, RowFault>
    ensures form { IfOk result (λ l. form_in l ≡ form_symbol n) }
    ensures err { IfErr result (λ e. e ≡ OutOfMemory) }
{
    let mut coefs = Terms::new(alloc);
    coefs.push(n, 1)?;
    Ok(Linear { coefs, bound: 0 })
}

// The sum of two forms, where both are there.
fn sum(
    alloc: Global,
    a: Result<Linear, RowFault>,
    b: Result<Linear, RowFault>,
) -> Result<Linear, RowFault>
    ensures { AnswersSum a b result }
{
    match (a, b) {
        (Ok(a), Ok(b)) => mixed(alloc, 1, row(a), 1, row(b)),
        (Err(e), _) => Err(e),
        (_, Err(e)) => Err(e),
    }
}

// A multiple of a form, where it is there.
fn multiple(alloc: Global, k: i128, a: Result<Linear, RowFault>) -> Result<Linear, RowFault>
    ensures { AnswersMultiple k a result }
{
    match a {
        Ok(a) => mixed(alloc, k, row(a), 0, row(units(alloc, 0))),
        Err(e) => Err(e),
    }
}

fn row(l: Linear) -> Row
    ensures { result ≡ row_in l }
{
    Row {
        coefs: l.coefs,
        bound: l.bound,
    }
}

fn form(row: Row) -> Linear
    ensures { result ≡ linear_in row }
{
    Linear {
        coefs: row.coefs,
        bound: row.bound,
    }
}

// The form whose numbers are those of a sum of two rows.
fn mixed(alloc: Global, by_left: i128, a: Row, by_right: i128, b: Row) -> Result<Linear, RowFault>
    ensures { Answers (form_mix by_left (form_row a) by_right (form_row b)) (rows.SumFits by_left by_right a b) result }
{
    match combine(alloc, by_left, &a, by_right, &b) {
        Ok(sum) => Ok(form(sum)),
        Err(e) => Err(e),
    }
}
