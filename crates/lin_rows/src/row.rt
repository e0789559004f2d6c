// Rows.
ghost use Rattle.std.specs.Prelude.{◌≡◌, IfOk};

use crate::terms::Terms;
use py_base::OutOfMemory;
use std::alloc::Global;

/// The inequality `sum of coef * x <= bound * q` of whole numbers x, which are kept in parts of `1/q`.
#[derive(Debug, Drop)]
pub struct Row {
    pub coefs: Terms,
    /// A number of whole units.
    pub bound: i128,
}

impl Row {
    /// An equal row.
    pub fn copy(&self, alloc: Global) -> Result<Row, OutOfMemory>
        ensures { IfOk result (λ row. row ≡ self.now) }
    {
        Ok(Row {
            coefs: self.coefs.copy(alloc)?,
            bound: self.bound,
        })
    }
}
