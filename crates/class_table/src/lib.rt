//! The classes of a module: from the tree of a text to its names and classes, or its first fault.
#![tactic(auto)]

mod assigned;
mod building;
mod checks;
mod class_list;
mod classes;
mod fault;
mod first;
mod forms;
mod inheriting;
mod init;
mod laws;
mod lists;
mod name_list;
mod names;
mod naming;
mod noting;
mod outline;
mod rows;
mod scope;
mod shape;
mod values;

pub use building::build;
pub use classes::Classes;
pub use fault::ClassFault;
pub use inheriting::{is_subclass, lookup};
pub use laws::the_first_fault_comes_first;
