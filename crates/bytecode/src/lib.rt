//! The machine's instructions, and the three-byte words that write them.

#![tactic(auto)]

mod argument;
mod coding;
mod conversion;
mod instruction;
mod text;

pub use argument::Argument;
pub use coding::decode;
pub use instruction::{Instruction, Word};
