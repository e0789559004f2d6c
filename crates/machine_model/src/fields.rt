// The fields of an object.
ghost use Rattle.std.specs.Prelude.{◌≡◌, OnOk, OnErr, IfOk};
ghost use Rattle.std.specs.FinMap as map;

use py_base::OutOfMemory;
use py_syntax::Value;
use std::alloc::Global;
use std::collections::BTreeMap;
use std::marker::Model;

/// The values of fields by their names. Contracts see a finite map.
#[derive(Debug, Drop)]
pub struct Fields {
    entries: BTreeMap<u32, Value>,
}

impl Model for Fields {
    ghost use Rattle.std.specs.Prelude.{ℕ};
    ghost use Rattle.std.specs.Ordering.{nat_cmp};
    ghost use Rattle.std.specs.FinMap as map;
    ghost use Rattle.std.specs.Coded.{coded_ℕ};
    ghost use Rattle.py_syntax.specs.declared.Value.{Value as Scalar};
    ghost use Rattle.py_syntax.specs.contracts.Value as scalar;

    ghost Value = { map.FinMap nat_cmp Scalar };

    ghost coded = { map.code coded_ℕ scalar.the_row.coded };

    ghost view = { λ f. map.from_entries f.entries.entries };
}

impl Fields {
    /// No field.
    pub fn new(alloc: Global) -> Fields
        ensures { result ≡ map.empty }
    {
        Fields {
            entries: BTreeMap::new(alloc),
        }
    }

    /// The value of a field, if it is there.
    pub fn get(&self, name: u32) -> Option<Value>
        ensures { result ≡ map.get self.now name }
    {
        self.entries.get(&name).copied()
    }

    /// Gives a field a value. Without memory nothing is changed.
    pub fn set(&mut self, name: u32, value: Value) -> Result<(), OutOfMemory>
        ensures ok { OnOk result (self.new ≡ map.insert self.old name value) }
        ensures err { OnErr result (self.new ≡ self.old) }
    {
        self.entries.insert(name, value)?;
        Ok(())
    }

    /// Equal fields.
    pub fn copy(&self) -> Result<Fields, OutOfMemory>
        ensures { IfOk result (λ copy. copy ≡ self.now) }
    {
        Ok(Fields {
            entries: self.entries.clone()?,
        })
    }
}
