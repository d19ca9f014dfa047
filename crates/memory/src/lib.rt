//! Where code is kept: the interface of a code memory, and a memory over handed-over bytes.

#![tactic(auto)]

mod code_memory;
mod flat;

pub use code_memory::CodeMemory;
pub use flat::Flat;

#[cfg(test)]
mod tests;
