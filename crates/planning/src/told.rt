//! What is told of a rule.

use compiler::Card;

/// The card of the rule, and the bytes of its listing.
#[derive(Clone, Copy, PartialEq, Eq, Debug)]
pub struct Plan {
    pub card: Card,
    pub listing: usize,
}
