//! The root of a table, with the tables of its parts; and a value for each binding in scope.

#![tactic(auto)]

mod bindings;
mod cuts;
mod node;

pub use bindings::{Bindings, bound};
pub use cuts::root;
pub use node::Node;
