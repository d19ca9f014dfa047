//! What a token can do, by its kind.

ghost use Rattle.std.specs.Prelude.{◌≡◌, IfSome};
ghost use Rattle.language.specs.Fold.{opening_of, sequel_of, misplaced, turn_of};
ghost use Rattle.reader.specs.Lets.{Opened};
ghost use Rattle.language.specs.Reading.{is_last};

use bytecode::Argument;
use language::{Due, Kind, Mark, Opening, Sequel, TokenKind, Turn};
use refusal::Refusal;

/// What a token begins where an operand is due, if anything.
pub(crate) fn opening(kind: TokenKind) -> Option<Opening>
    ensures value { result ≡ opening_of kind }
    ensures opened { IfSome result Opened }
{
    match kind {
        TokenKind::Number(k) => Some(Opening::Leaf(Kind::Number, k)),
        TokenKind::Truth(b) => Some(Opening::Leaf(Kind::Truth, Argument::plus(u8::from(b)))),
        TokenKind::Name => Some(Opening::Name),
        TokenKind::Prefix(prefix) => Some(Opening::Nested(Mark::Prefix(prefix))),
        TokenKind::Open => Some(Opening::Nested(Mark::Paren)),
        TokenKind::If => Some(Opening::Whole(Mark::Condition, Due::Operand)),
        TokenKind::Let => Some(Opening::Whole(Mark::Binder, Due::Binder)),
        TokenKind::Binary(_)
        | TokenKind::Then
        | TokenKind::Else
        | TokenKind::In
        | TokenKind::Close
        | TokenKind::End
        | TokenKind::TooLarge
        | TokenKind::Bad => None,
    }
}

/// What a token does where an operand has ended, if anything.
pub(crate) fn sequel(kind: TokenKind) -> Option<Sequel>
    ensures { result ≡ sequel_of kind }
{
    match kind {
        TokenKind::Binary(operator) => Some(Sequel::Join(operator)),
        TokenKind::Then => Some(Sequel::Turn(Turn::Then)),
        TokenKind::Else => Some(Sequel::Turn(Turn::Else)),
        TokenKind::In => Some(Sequel::Bring),
        TokenKind::Close => Some(Sequel::Shut),
        TokenKind::End => Some(Sequel::Finish),
        TokenKind::Number(_)
        | TokenKind::Truth(_)
        | TokenKind::Name
        | TokenKind::Prefix(_)
        | TokenKind::Open
        | TokenKind::If
        | TokenKind::Let
        | TokenKind::TooLarge
        | TokenKind::Bad => None,
    }
}

/// Why a token is refused that cannot follow.
pub(crate) fn refused(kind: TokenKind, place: usize) -> Refusal
    ensures { result ≡ misplaced kind place }
{
    match kind {
        TokenKind::TooLarge => Refusal::NumberTooLarge(place),
        TokenKind::Bad => Refusal::NoToken(place),
        TokenKind::Number(_)
        | TokenKind::Truth(_)
        | TokenKind::Name
        | TokenKind::Binary(_)
        | TokenKind::Prefix(_)
        | TokenKind::If
        | TokenKind::Then
        | TokenKind::Else
        | TokenKind::Let
        | TokenKind::In
        | TokenKind::Open
        | TokenKind::Close
        | TokenKind::End => Refusal::Unexpected(place),
    }
}

/// Whether no token follows this one.
// Three kinds, so a pattern and no `==`.
pub(crate) fn is_last(kind: TokenKind) -> bool
    ensures { result ≡ is_last kind }
{
    matches!(kind, TokenKind::End | TokenKind::TooLarge | TokenKind::Bad)
}

/// What a word makes of the part of an if that is open.
pub(crate) fn turned(turn: Turn, mark: Mark) -> Option<Mark>
    ensures { result ≡ turn_of turn mark }
{
    match (turn, mark) {
        (Turn::Then, Mark::Condition) => Some(Mark::Then),
        (Turn::Else, Mark::Then) => Some(Mark::Else),
        _ => None,
    }
}
