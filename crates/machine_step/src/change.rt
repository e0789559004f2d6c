// What an item does, once all that can fail is done.
ghost use Rattle.std.specs.Prelude.{◌≡◌, Some, None};
ghost use Rattle.machine_step.specs.declared.change.Deed.TheVariants.{Stays};

use py_base::Text;
use py_syntax::Value;

/// What an item does to the running frame, and the line that it prints: so many values are dropped
/// from the top, then a value is pushed, and a local gets a value.
#[derive(Debug, Drop)]
pub struct Change {
    pub drops: usize,
    pub pushes: Option<Value>,
    pub stores: Option<(u32, Value)>,
    pub line: Option<Text>,
}

/// What an item does to its thread.
#[derive(Debug, Drop)]
pub enum Deed {
    /// The running frame goes on.
    Stays(Change),
    /// The thread ends with its only frame.
    Ends,
}

impl Deed {
    /// So many values are dropped.
    pub fn dropping(drops: usize) -> Deed
        ensures { result ≡ Stays (record { drops = drops; pushes = None; stores = None; line = None }) }
    {
        Deed::Stays(Change {
            drops,
            pushes: None,
            stores: None,
            line: None,
        })
    }

    /// A value takes the place of the topmost ones, so many.
    pub fn pushing(drops: usize, value: Value) -> Deed
        ensures { result ≡ Stays (record { drops = drops; pushes = Some value; stores = None; line = None }) }
    {
        Deed::Stays(Change {
            drops,
            pushes: Some(value),
            stores: None,
            line: None,
        })
    }

    /// A local gets the topmost value, which is dropped.
    pub fn storing(local: u32, value: Value) -> Deed
        ensures { result ≡ Stays (record { drops = 1; pushes = None; stores = Some (local, value); line = None }) }
    {
        Deed::Stays(Change {
            drops: 1,
            pushes: None,
            stores: Some((local, value)),
            line: None,
        })
    }

    /// A line is printed, and so many values are dropped.
    pub fn printing(drops: usize, line: Text) -> Deed
        ensures { result ≡ Stays (record { drops = drops; pushes = None; stores = None; line = Some line }) }
    {
        Deed::Stays(Change {
            drops,
            pushes: None,
            stores: None,
            line: Some(line),
        })
    }
}

/// An item that can be done. The first item of `main` takes the mark in front of it along.
#[derive(Debug, Drop)]
pub struct Plan {
    pub first: bool,
    pub deed: Deed,
}
