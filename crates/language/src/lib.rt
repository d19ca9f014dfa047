//! The rule language: its operators, the table that holds a tree, and the definitions of what a rule means.

#![tactic(auto)]

mod entry;
mod frame;
mod operator;
mod rows;
mod step;
mod token;

pub use entry::{Entry, Kind};
pub use frame::{Due, Frame, Mark};
pub use operator::{Operator, Prefix, PrefixRow, Row, ValueType};
pub use step::{Opening, Sequel, Turn};
pub use token::{Token, TokenKind};
