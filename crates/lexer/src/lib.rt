//! The tokens of a rule's text, one after another.

#![tactic(auto)]

mod bytes;
mod cursor;
mod next;
mod scan;

pub use bytes::{is_blank, same};
pub use cursor::Lexer;
