//! Moving the lexer from token to token.

ghost use Rattle.std.specs.Prelude.{◌≡◌, ℕ, ◌≤◌, length};
ghost use Rattle.language.specs.Tokens.{Lexeme, lexeme, after};
ghost use Rattle.lexer.specs.Lexing.{plain};

use crate::bytes::{is_blank, run};
use crate::cursor::Lexer;
use crate::scan::scan;
use language::Token;

impl<'a> Lexer<'a> {
    /// A cursor at the start of the text.
    pub fn new(text: &'a [u8]) -> Lexer<'a>
        ensures text { result.text.now ≡ text.now }
        ensures start { result.at ≡ 0 }
    {
        Lexer { text, at: 0 }
    }

    /// The next token, behind which the cursor then stands.
    pub fn next(&mut self) -> Token<'a>
        ensures token { plain result ≡ lexeme self.old.text.now self.old.at }
        ensures moved { self.new.at ≡ after self.old.text.now self.old.at }
        ensures same { self.new.text ≡ self.old.text }
    {
        let place = self.at + run(&self.text[self.at..], is_blank);
        let (kind, length) = scan(&self.text[place..]);
        self.at = place + length;
        Token {
            kind,
            place,
            text: &self.text[place..self.at],
        }
    }
}
