//! The shape of a rule's code, known before a word of it is written.

#![tactic(auto)]

mod shape;
mod walk;

pub use shape::Shape;
pub use walk::measure;
