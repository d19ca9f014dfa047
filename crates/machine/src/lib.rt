//! The accumulator machine, over any code memory and any arithmetic.

#![tactic(auto)]

mod outcome;
mod processor;
mod running;
mod step;

pub use outcome::{Finished, Halt};
pub use running::run;
