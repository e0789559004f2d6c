// The classes of a text.
use py_base::Text;
use py_syntax::Class;
use sqlite_items::Items;

/// The names of a module in the order in which the text first has them, its classes, and the number of
/// `main` among its methods.
#[derive(Debug, Drop)]
pub struct Classes {
    pub names: Items<Text>,
    pub list: Items<Class>,
    pub main: u32,
}
