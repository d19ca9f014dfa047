//! What a token can do while a rule is read. Values and no functions to call, since the grammar's fold reads them too.

use crate::entry::Kind;
use crate::frame::{Due, Mark};
use crate::operator::Operator;
use bytecode::Argument;

/// What a token begins where an operand is due.
#[derive(Clone, Copy, PartialEq, Eq, Debug)]
pub enum Opening {
    /// An operand of one entry, of this kind and with this number.
    Leaf(Kind, Argument),
    /// A name.
    Name,
    /// A frame before an operand or in place of one.
    Nested(Mark),
    /// A frame that stands only where a whole expression may, and what is due in it first.
    Whole(Mark, Due),
}

/// A word that leads from one part of an if to the next.
#[derive(Clone, Copy, PartialEq, Eq, Debug)]
pub enum Turn {
    Then,
    Else,
}

/// What a token does where an operand has ended.
#[derive(Clone, Copy, PartialEq, Eq, Debug)]
pub enum Sequel {
    /// An operator waits for its right side.
    Join(Operator),
    /// The next part of an if begins.
    Turn(Turn),
    /// The second expression of a let begins, with its name in scope.
    Bring,
    /// A parenthesis ends.
    Shut,
    /// The text ends.
    Finish,
}
