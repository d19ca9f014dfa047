//! The root of a table, with its parts.

use bytecode::Argument;
use language::{Entry, Operator, Prefix};

/// The last entry of a table, with its place and with the tables of its parts.
#[derive(Clone, Copy, PartialEq, Eq, Debug)]
pub enum Node<'t> {
    /// The constant.
    Number(Argument),
    /// 1 or 0.
    Truth(Argument),
    /// The position of its binding, and its place.
    Name(u8, usize),
    /// The operator, its place, and its operand.
    Prefix(Prefix, usize, &'t [Entry]),
    /// The operator, its place, and its two operands.
    Binary(Operator, usize, &'t [Entry], &'t [Entry]),
    /// Its place, its condition, and its two branches.
    If(usize, &'t [Entry], &'t [Entry], &'t [Entry]),
    /// The value that is bound, and the body.
    Let(&'t [Entry], &'t [Entry]),
}
