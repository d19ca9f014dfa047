//! The token that a text begins with, and how many bytes it has.
// The two are a pair, as in the definitions: each clause is then one equation, where a struct would be taken apart.

ghost use Rattle.std.specs.Prelude.{◌≡◌, cond, nat_lt, Some, None, slice_index};
ghost use Rattle.language.specs.Tokens.{value_from, numeral, word, mark, numeral_at, word_at, is_minus, scanned};

use crate::bytes::{is_digit, is_word, run};
use bytecode::Argument;
use language::{Operator, Prefix, TokenKind};

// The number that the digits write, if it is at most 255.
fn value(digits: &[u8]) -> Option<u8>
    ensures { result ≡ cond (nat_lt 255 (value_from 0 digits.now)) None (Some (value_from 0 digits.now)) }
{
    digits.iter().try_fold(0u8, |n, digit| {
        n.checked_mul(10)?.checked_add(digit.saturating_sub(b'0'))
    })
}

// The token that a run of digits is, behind a minus sign or not.
fn numeral_of(negative: bool, digits: &[u8]) -> TokenKind
    ensures { result ≡ numeral negative digits.now }
{
    if let [b'0', _, ..] = digits {
        return TokenKind::Bad;
    }
    let Some(size) = value(digits) else {
        return TokenKind::TooLarge;
    };
    let argument = if negative {
        Argument::minus(size)
    } else {
        Some(Argument::plus(size))
    };
    argument.map_or(TokenKind::Bad, TokenKind::Number)
}

// The token that a run of letters and digits is.
fn word_of(bytes: &[u8]) -> TokenKind
    ensures { result ≡ word bytes.now }
{
    match bytes {
        b"if" => TokenKind::If,
        b"then" => TokenKind::Then,
        b"else" => TokenKind::Else,
        b"let" => TokenKind::Let,
        b"in" => TokenKind::In,
        b"not" => TokenKind::Prefix(Prefix::Not),
        b"true" => TokenKind::Truth(true),
        b"false" => TokenKind::Truth(false),
        _ => TokenKind::Name,
    }
}

// The mark that the text begins with, of two bytes if these are one, else of one byte.
fn mark_at(text: &[u8]) -> (TokenKind, usize)
    ensures { result ≡ mark (slice_index text.now 0) (slice_index text.now 1) }
{
    match text {
        [b'+', b'+', ..] => (TokenKind::Prefix(Prefix::Increment), 2),
        [b'&', b'&', ..] => (TokenKind::Binary(Operator::And), 2),
        [b'|', b'|', ..] => (TokenKind::Binary(Operator::Or), 2),
        [b'<', b'=', ..] => (TokenKind::Binary(Operator::AtMost), 2),
        [b'+', ..] => (TokenKind::Binary(Operator::Plus), 1),
        [b'*', ..] => (TokenKind::Binary(Operator::Times), 1),
        [b'=', ..] => (TokenKind::Binary(Operator::Equal), 1),
        [b'(', ..] => (TokenKind::Open, 1),
        [b')', ..] => (TokenKind::Close, 1),
        _ => (TokenKind::Bad, 0),
    }
}

// The run of digits at the start of the text, cut off by its length as in the definition.
fn numeral_at(negative: bool, text: &[u8]) -> (TokenKind, usize)
    ensures { result ≡ numeral_at negative text.now }
{
    let n = run(text, is_digit);
    (numeral_of(negative, &text[..n]), n)
}

// The run of letters and digits at the start of the text, cut off likewise.
fn word_at(text: &[u8]) -> (TokenKind, usize)
    ensures { result ≡ word_at text.now }
{
    let n = run(text, is_word);
    (word_of(&text[..n]), n)
}

// Whether the text begins with a minus sign that belongs to the digits behind it.
fn is_negative(text: &[u8]) -> bool
    ensures { result ≡ is_minus (slice_index text.now 0) (slice_index text.now 1) }
{
    matches!(text, [b'-', b'1'..=b'9', ..])
}

/// The token that the text begins with, behind no blank, and how many bytes it has.
pub(crate) fn scan(text: &[u8]) -> (TokenKind, usize)
    ensures { result ≡ scanned text.now }
{
    let Some(first) = text.first() else {
        return (TokenKind::End, 0);
    };
    if first.is_ascii_digit() {
        numeral_at(false, text)
    } else if is_negative(text) {
        let (kind, n) = numeral_at(true, &text[1..]);
        (kind, n + 1)
    } else if first.is_ascii_lowercase() {
        word_at(text)
    } else {
        mark_at(text)
    }
}
