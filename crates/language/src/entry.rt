//! The table that holds a rule's tree in post-order: entries with sizes in the caller's slice, since there is no heap for
//! boxes.

use crate::operator::{Operator, Prefix};
use bytecode::Argument;

/// What an entry is: nothing, a leaf, or a node whose parts stand before it.
#[derive(Clone, Copy, PartialEq, Eq, Debug)]
pub enum Kind {
    /// Of an entry that holds nothing. A kind and no option, since a table's entries have a kind each.
    Blank,
    Number,
    Truth,
    Name,
    Prefix(Prefix),
    Binary(Operator),
    If,
    Let,
}

/// An entry of the table.
#[derive(Clone, Copy, PartialEq, Eq, Debug)]
pub struct Entry {
    pub kind: Kind,
    /// The constant; 1 or 0 for a truth value; the position of a name, 0 being the innermost binding; else 0.
    pub number: Argument,
    /// How many entries the subtree has, this one included.
    pub size: usize,
    /// The byte of the text where the operator, the opening word or the token begins.
    pub place: usize,
}

impl Entry {
    /// The entry with nothing in it, all zero.
    pub const BLANK: Entry = Entry {
        kind: Kind::Blank,
        number: Argument {
            negative: false,
            size: 0,
        },
        size: 0,
        place: 0,
    };
}
