//! The tokens of a rule's text.

use crate::operator::{Operator, Prefix};
use bytecode::Argument;

/// What begins at a place of the text, behind any blanks.
// The end and what is no token stand beside the tokens, not in a `Result`: the grammar's fold reads them as letters,
// and each law over lists of tokens would carry the error too.
#[derive(Clone, Copy, PartialEq, Eq, Debug)]
pub enum TokenKind {
    Number(Argument),
    Truth(bool),
    Name,
    Binary(Operator),
    Prefix(Prefix),
    If,
    Then,
    Else,
    Let,
    In,
    Open,
    Close,
    /// The end of the text.
    End,
    /// A number beyond 255 on either side of 0.
    TooLarge,
    /// No token.
    Bad,
}

/// A token, the place where it begins, and its part of the text.
#[derive(Clone, Copy, PartialEq, Eq, Debug)]
pub struct Token<'a> {
    pub kind: TokenKind,
    pub place: usize,
    pub text: &'a [u8],
}
