//! What is kept of a rule beside its code.

ghost use Rattle.std.specs.Prelude.{◌≤◌};

use language::ValueType;

/// The type of a rule, the number of its words and the height of its stack. Every card has 1 to 1,536 words and a height
/// of 8 to 128.
#[derive(Clone, Copy, PartialEq, Eq, Debug)]
pub struct Card {
    pub gives: ValueType,
    pub length: usize,
    pub height: usize,
    ghost some: { 1 ≤ length },
    ghost short: { length ≤ 1536 },
    ghost low: { 8 ≤ height },
    ghost high: { height ≤ 128 },
}
