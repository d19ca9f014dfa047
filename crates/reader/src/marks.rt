//! What there is to know of a frame's mark.

ghost use Rattle.std.specs.Prelude.{◌≡◌};
ghost use Rattle.language.specs.Frames.{level_by, binds, kind_of, nests as nests_by};

use language::{Kind, Mark};

/// How tightly an open frame holds what follows it.
pub(crate) fn level(mark: Mark) -> usize
    ensures { result ≡ level_by mark }
{
    match mark {
        Mark::Paren
        | Mark::Condition
        | Mark::Then
        | Mark::Else
        | Mark::Binder
        | Mark::Value
        | Mark::Body => 0,
        Mark::Binary(operator) => operator.row().level,
        Mark::Prefix(_) => 6,
    }
}

/// Whether a frame ends where nothing that binds tighter than the level goes on.
pub(crate) fn ends_at(least: usize, mark: Mark) -> bool
    ensures { result ≡ binds least mark }
{
    match mark {
        Mark::Paren | Mark::Condition | Mark::Then | Mark::Binder | Mark::Value => false,
        Mark::Else | Mark::Body => least == 0,
        Mark::Binary(operator) => least <= operator.row().level,
        Mark::Prefix(_) => least <= 6,
    }
}

/// The kind of the entry that a frame becomes when it ends.
pub(crate) fn kind(mark: Mark) -> Kind
    ensures { result ≡ kind_of mark }
{
    match mark {
        Mark::Paren | Mark::Condition | Mark::Then | Mark::Binder | Mark::Value => Kind::Blank,
        Mark::Else => Kind::If,
        Mark::Body => Kind::Let,
        Mark::Binary(operator) => Kind::Binary(operator),
        Mark::Prefix(prefix) => Kind::Prefix(prefix),
    }
}

/// Whether a frame counts as nested.
pub(crate) fn nests(mark: Mark) -> bool
    ensures { result ≡ nests_by mark }
{
    !matches!(mark, Mark::Binary(_))
}
