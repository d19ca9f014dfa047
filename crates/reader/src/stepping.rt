//! One step of the parser.

ghost use Rattle.std.specs.Prelude.{◌≡◌};
ghost use Rattle.language.specs.Fold.{bound, equated, feed};
ghost use Rattle.lexer.specs.Lexing.{plain};
ghost use Rattle.reader.specs.Steps.{view, Room, Stepped};

use crate::kinds::refused;
use crate::parser::Parser;
use language::{Due, Mark, Operator, Token, TokenKind};
use refusal::Refusal;

impl<'t, 'a> Parser<'t, 'a> {
    // Takes the name of a let.
    fn bind(&mut self, token: Token<'a>) -> Result<(), Refusal>
        requires { self.old.due ≡ Due.Binder }
        ensures { Stepped (bound (view self.old) token.entry.kind token.entry.place token.entry.text.now) result self.old self.new }
    {
        if token.kind != TokenKind::Name {
            return Err(refused(token.kind, token.place));
        }
        self.pending.push(token.text);
        self.stack.remark(Mark::Value, self.count);
        self.due = Due::Equals;
        Ok(())
    }

    // Takes the `=` behind the name of a let.
    fn equate(&mut self, token: Token<'a>) -> Result<(), Refusal>
        ensures { Stepped (equated (view self.old) token.entry.kind token.entry.place) result self.old self.new }
    {
        if token.kind != TokenKind::Binary(Operator::Equal) {
            return Err(refused(token.kind, token.place));
        }
        self.due = Due::Operand;
        Ok(())
    }

    /// Takes one token, and writes the entries that it ends.
    pub(crate) fn step(&mut self, token: Token<'a>) -> Result<(), Refusal>
        requires { Room self.old }
        ensures { Stepped (feed (view self.old) (plain token.entry)) result self.old self.new }
    {
        match self.due {
            Due::Operand => self.begin(token),
            Due::Binder => self.bind(token),
            Due::Equals => self.equate(token),
            Due::Operator => self.go_on(token),
        }
    }
}
