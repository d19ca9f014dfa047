//! What stays open while a rule is read. Values and no functions to call, since the grammar's fold reads them too.

use crate::operator::{Operator, Prefix};

/// What the reader waits for.
#[derive(Clone, Copy, PartialEq, Eq, Debug)]
pub enum Due {
    /// An operand begins.
    Operand,
    /// A name, behind `let`.
    Binder,
    /// `=`, behind the name of a let.
    Equals,
    /// An operand has ended.
    Operator,
}

/// What is open: a parenthesis; an if in its condition, its then or its else branch; a let before its name, in its
/// first or its second expression; an operator that waits for its right side; a prefix that waits for its operand.
#[derive(Clone, Copy, PartialEq, Eq, Debug, Default)]
pub enum Mark {
    #[default]
    Paren,
    Condition,
    Then,
    Else,
    Binder,
    Value,
    Body,
    Binary(Operator),
    Prefix(Prefix),
}

/// A frame of the reader's stack.
#[derive(Clone, Copy, PartialEq, Eq, Debug, Default)]
pub struct Frame {
    pub mark: Mark,
    /// The byte where the operator or the opening word begins.
    pub place: usize,
    /// How many entries stand before those of the part that the frame will end.
    pub whole: usize,
    /// How many entries stand before those of the operand that comes next.
    pub first: usize,
}
