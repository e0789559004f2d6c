// The rows of assumptions, and their numbers.
ghost use Rattle.std.specs.Prelude.{◌≡◌, ◌&&◌, ◌⊎◌, ◌++◌, ◌-◌, [], ◌∷◌, ◌<◌, ◌^◌, length, IsTrue, IfOk, OnOk, IfErr, None, MatchResult};
ghost use Rattle.lin_rows.specs.declared.RowFault.TheVariants.{Wide};
ghost use Rattle.terms.specs.Sorts.{of_numbers};
ghost use Rattle.proof_checker.specs.Rows.{RowFits};
ghost use Rattle.cond_facts.specs.FactRows.{IsThereIf, AreThere, AreRead, HasWideRow, IsWideAt, present, places};

use crate::fact_row::row_of;
use lin_rows::{Row, RowFault};
use py_base::OutOfMemory;
use sqlite_items::Items;
use std::alloc::Global;
use terms::{Literal, Term};

fn are_numbers(a: &Term, b: &Term) -> bool
    ensures { result ≡ of_numbers a.now && of_numbers b.now }
{
    a.is_of_numbers() && b.is_of_numbers()
}

// The row of `a <= b`, where it is wanted.
fn row_if(alloc: Global, wanted: bool, a: &Term, b: &Term) -> Result<Option<Row>, RowFault>
    ensures row { IfOk result (IsThereIf wanted a.now b.now) }
    ensures wide { IfErr result (λ e. e ≡ Wide → IsTrue wanted × ¬ (RowFits a.now b.now)) }
{
    if wanted {
        match row_of(alloc, a, b) {
            Ok(row) => Ok(Some(row)),
            Err(e) => Err(e),
        }
    } else {
        Ok(None)
    }
}

/// The two rows that have an assumption's numbers.
#[derive(Drop)]
pub(crate) struct Pair {
    first: Option<Row>,
    second: Option<Row>,
}

// The row of an order.
fn order_rows(alloc: Global, a: &Term, b: &Term) -> Result<Pair, RowFault>
    ensures rows { IfOk result (λ p. IsThereIf (of_numbers a.now && of_numbers b.now) a.now b.now p.first × (p.second ≡ None)) }
    ensures wide { IfErr result (λ e. e ≡ Wide → IsTrue (of_numbers a.now && of_numbers b.now) × ¬ (RowFits a.now b.now)) }
{
    match row_if(alloc, are_numbers(a, b), a, b) {
        Ok(first) => Ok(Pair {
            first,
            second: None,
        }),
        Err(e) => Err(e),
    }
}

// The rows of an equality.
fn equality_rows(alloc: Global, a: &Term, b: &Term) -> Result<Pair, RowFault>
    ensures rows { IfOk result (λ p. IsThereIf (of_numbers a.now && of_numbers b.now) a.now b.now p.first × IsThereIf (of_numbers a.now && of_numbers b.now) b.now a.now p.second) }
    ensures wide { IfErr result (λ e. e ≡ Wide → IsTrue (of_numbers a.now && of_numbers b.now) × (¬ (RowFits a.now b.now) ⊎ ¬ (RowFits b.now a.now))) }
{
    let wanted = are_numbers(a, b);
    match row_if(alloc, wanted, a, b) {
        Ok(first) => match row_if(alloc, wanted, b, a) {
            Ok(second) => Ok(Pair { first, second }),
            Err(e) => Err(e),
        },
        Err(e) => Err(e),
    }
}

/// The rows of an assumption.
pub(crate) fn rows_of(alloc: Global, fact: &Literal) -> Result<Pair, RowFault>
    ensures rows { IfOk result (λ p. AreThere fact.now p.first p.second) }
    ensures wide { IfErr result (λ e. e ≡ Wide → HasWideRow fact.now) }
{
    match fact {
        Literal::AtMost(a, b) => order_rows(alloc, a, b),
        Literal::Same(a, b) => equality_rows(alloc, a, b),
        _ => Ok(Pair {
            first: None,
            second: None,
        }),
    }
}

/// Rows of assumptions, and the numbers that the assumptions give them.
#[derive(Drop)]
pub struct Reading {
    pub rows: Items<Row>,
    pub numbers: Items<u32>,
}

impl Reading {
    // Adds a row, where it is there.
    fn add(&mut self, row: Option<Row>, number: u32) -> Result<(), OutOfMemory>
        ensures rows { OnOk result (self.new.rows ≡ self.old.rows ++ present (row ∷ [])) }
        ensures numbers { OnOk result (self.new.numbers ≡ self.old.numbers ++ places number (row ∷ [])) }
    {
        if let Some(row) = row {
            self.rows.push(row)?;
            self.numbers.push(number)?;
        }
        Ok(())
    }

    // Adds those of a pair.
    fn add_pair(&mut self, pair: Pair, number: u32) -> Result<(), OutOfMemory>
        requires { number < 2 ^ 32 - 1 }
        ensures rows { OnOk result (self.new.rows ≡ self.old.rows ++ present (pair.first ∷ pair.second ∷ [])) }
        ensures numbers { OnOk result (self.new.numbers ≡ self.old.numbers ++ places number (pair.first ∷ pair.second ∷ [])) }
    {
        self.add(pair.first, number)?;
        self.add(pair.second, number + 1)
    }
}

/// The rows of assumptions, or the place of the first that has one outside 128 bits.
pub fn read(alloc: Global, facts: &[Literal]) -> Result<Result<Reading, usize>, OutOfMemory>
    requires few { length facts.now < 2 ^ 31 }
    ensures { IfOk result (λ r. MatchResult r (λ reading. AreRead facts.now reading.rows reading.numbers) (IsWideAt facts.now)) }
{
    let mut reading = Reading {
        rows: Items::new(alloc),
        numbers: Items::new(alloc),
    };
    for place in 0..facts.len() {
        match rows_of(alloc, &facts[place]) {
            Ok(pair) => reading.add_pair(pair, 2 * place as u32)?,
            Err(RowFault::Wide) => return Ok(Err(place)),
            Err(RowFault::OutOfMemory) => return Err(OutOfMemory),
        }
    }
    Ok(Ok(reading))
}
