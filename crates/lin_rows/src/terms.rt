// Linear forms.
ghost use Rattle.std.specs.Prelude.{◌≡◌, [], ◌∷◌, ◌++◌, IfOk, OnOk, OnErr};
ghost use Rattle.lin_rows.specs.Terms.{IsNormal, coef_at};

use py_base::OutOfMemory;
use smallvec::SmallVec;
use std::alloc::Global;
use std::marker::Model;

/// The terms of a linear form: variables in ascending order with their coefficients, none of them 0.
/// Contracts see the list.
#[derive(Debug, Drop)]
pub struct Terms {
    items: SmallVec<(u32, i128), 4>,
}

impl Model for Terms {
    ghost use Rattle.std.specs.Prelude.{ℕ, ℤ, List};
    ghost use Rattle.lin_rows.specs.Terms.{IsNormal};

    ghost Value = { List (ℕ × ℤ) };

    ghost view = { λ t. t.items.items };

    ghost invariant = { λ t. IsNormal t.items.items };
}

impl Terms {
    /// No terms.
    pub fn new(alloc: Global) -> Terms
        ensures { result ≡ [] }
    {
        Terms {
            items: SmallVec::new(alloc),
        }
    }

    /// The terms, which are in order.
    pub fn as_slice(&self) -> &[(u32, i128)]
        ensures terms { result.now ≡ self.now }
        ensures in_order { IsNormal self.now }
    {
        self.items.as_slice()
    }

    /// The coefficient of a variable, 0 where it has no term.
    pub fn coef(&self, var: u32) -> i128
        ensures { result ≡ coef_at self.now var }
    {
        for (v, c) in self.items.as_slice() {
            if *v == var {
                return *c;
            }
        }
        0
    }

    /// Adds a term at the end.
    pub fn push(&mut self, var: u32, coef: i128) -> Result<(), OutOfMemory>
        requires { IsNormal (self.old ++ (var, coef) ∷ []) }
        ensures ok { OnOk result (self.new ≡ self.old ++ (var, coef) ∷ []) }
        ensures err { OnErr result (self.new ≡ self.old) }
    {
        self.items.push((var, coef))?;
        Ok(())
    }

    /// Equal terms.
    pub fn copy(&self, alloc: Global) -> Result<Terms, OutOfMemory>
        ensures { IfOk result (λ terms. terms ≡ self.now) }
    {
        Ok(Terms {
            items: SmallVec::from_slice(alloc, self.items.as_slice())?,
        })
    }
}
