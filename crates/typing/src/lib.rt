//! Judging a rule: the type of the tree in a table, or the place of the first entry whose types do not fit.

#![tactic(auto)]

mod scope;
mod walk;

pub use walk::judge;
