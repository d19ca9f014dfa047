//! The planning kit: a rule's text read, judged, translated and listed, and a refusal explained to a person.

#![tactic(auto)]

mod explaining;
mod making;
mod told;

pub use explaining::place;
pub use making::plan;
pub use told::Plan;
