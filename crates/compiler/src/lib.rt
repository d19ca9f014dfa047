//! Translating a rule: the words of the tree in a table, written to a code memory.

#![tactic(auto)]

mod card;
mod emit;
mod layout;
mod writing;

pub use card::Card;
pub use writing::translate;
