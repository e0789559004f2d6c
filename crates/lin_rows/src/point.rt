// Points.
use sqlite_items::Items;

/// Numbers for variables, in parts of `1/q`. A variable that isn't listed is 0.
#[derive(Debug, Drop)]
pub struct Point {
    /// The unit.
    pub q: i128,
    pub values: Items<(u32, i128)>,
}
