// What the rules find in a text.
use sqlite_items::Items;
use type_base::Fault;
use type_names::{Local, TypeAt};

/// What the rules find in a text: the faults and the types of its expressions in the order of the text, and the locals of its
/// methods in turn.
#[derive(Debug, Drop)]
pub struct Findings {
    pub faults: Items<Fault>,
    pub types: Items<TypeAt>,
    pub locals: Items<Items<Local>>,
}
