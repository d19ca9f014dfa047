//! The machine tried on small code, over both arithmetics.

#![tactic(auto)]

#[cfg(test)]
mod tests;
