//! The lexer: a cursor over the caller's text, of which every token is a part.

ghost use Rattle.std.specs.Prelude.{ℕ, ◌≤◌, length};

/// A cursor over a text.
// The text and a place in it, not the rest of the text: a token's place counts from the text's start.
#[derive(Drop)]
pub struct Lexer<'a> {
    pub text: &'a [u8],
    pub at: usize,
    ghost within: { at ≤ length text.now },
}
