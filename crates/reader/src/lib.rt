//! Reads the text of a rule into a caller's table, as a tree in post-order.

#![tactic(auto)]

mod closing;
mod frames;
mod kinds;
mod marks;
mod names;
mod opening;
mod parser;
mod reading;
mod scope;
mod sequel;
mod stack;
mod stepping;

pub use reading::read;
