//! A code memory of 1,024 bytes: 64 records of 16 bytes, of which each belongs to the rule's chain or to the free chain.

#![tactic(auto)]

mod bytes;
mod cursor;
mod laws;
mod record_memory;

pub use laws::chains_move;
pub use record_memory::RecordMemory;
