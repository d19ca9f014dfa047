//! The parser where an operand has ended.

ghost use Rattle.std.specs.Prelude.{ℕ, ◌≡◌, ◌<◌, []};
ghost use Rattle.language.specs.Fold.{ends, joined, turned as turned_by, turn_of, in_of, brought, shut, finished, sequel_of, gone_on};
ghost use Rattle.std.specs.Option.{ok_or};
ghost use Rattle.language.specs.Frames.{above};
ghost use Rattle.reader.specs.Opened.{frames_of};
ghost use Rattle.reader.specs.Steps.{view, Room, Stepped, least_by, Low, followed_by};

use crate::kinds::{refused, sequel, turned};
use crate::parser::Parser;
use language::{Due, Mark, Operator, Sequel, Token, Turn};
use refusal::Refusal;

// The level at which a sequel ends what stands before it.
fn least_of(sequel: Sequel) -> usize
    ensures { result ≡ least_by sequel }
{
    let Sequel::Join(operator) = sequel else {
        return 0;
    };
    let row = operator.row();
    if row.repeats {
        row.level
    } else {
        row.level + 1
    }
}

impl<'t, 'a> Parser<'t, 'a> {
    // An operator between two operands.
    fn join(&mut self, operator: Operator, place: usize) -> Option<()>
        requires { above (frames_of self.old.stack) < ends operator }
        ensures { Stepped (joined operator place (view self.old) []) (ok_or result (Refusal.Unexpected place)) self.old self.new }
    {
        if self.stack.above() == operator.row().level {
            return None;
        }
        let whole = self.stack.start();
        self.push(Mark::Binary(operator), place, whole, Due::Operand);
        Some(())
    }

    // The next part of an if.
    fn turn(&mut self, turn: Turn) -> Option<()>
        ensures { (place : ℕ) → Stepped (turned_by (turn_of turn) place (view self.old) []) (ok_or result (Refusal.Unexpected place)) self.old self.new }
    {
        let frame = self.stack.top()?;
        let mark = turned(turn, frame.mark)?;
        self.stack.remark(mark, self.count);
        self.due = Due::Operand;
        Some(())
    }

    // The second expression of a let, in which its name is in scope.
    fn bring(&mut self) -> Option<()>
        ensures { (place : ℕ) → Stepped (brought (turned_by in_of place (view self.old) [])) (ok_or result (Refusal.Unexpected place)) self.old self.new }
    {
        let frame = self.stack.top()?;
        if frame.mark != Mark::Value {
            return None;
        }
        self.stack.remark(Mark::Body, self.count);
        self.pending.hand_over(&mut self.scope);
        self.due = Due::Operand;
        Some(())
    }

    // The end of a parenthesis.
    fn shut(&mut self) -> Option<()>
        ensures { (place : ℕ) → Stepped (shut place (view self.old) []) (ok_or result (Refusal.Unexpected place)) self.old self.new }
    {
        let frame = self.stack.top()?;
        if frame.mark != Mark::Paren {
            return None;
        }
        self.pop(frame);
        Some(())
    }

    // The end of the text.
    fn finish(&self) -> Option<()>
        ensures { (place : ℕ) → Stepped (finished place (view self.now) []) (ok_or result (Refusal.Unexpected place)) self.now self.now }
    {
        self.stack.top().is_none().then_some(())
    }

    // What a sequel does once the frames before it have ended, if it can.
    fn follow(&mut self, sequel: Sequel, place: usize) -> Option<()>
        requires { Low sequel (frames_of self.old.stack) }
        ensures { Stepped (followed_by sequel (view self.old) [] place) (ok_or result (Refusal.Unexpected place)) self.old self.new }
    {
        match sequel {
            Sequel::Join(operator) => self.join(operator, place),
            Sequel::Turn(word) => self.turn(word),
            Sequel::Bring => self.bring(),
            Sequel::Shut => self.shut(),
            Sequel::Finish => self.finish(),
        }
    }

    /// Takes a token where an operand has ended.
    pub(crate) fn go_on(&mut self, token: Token<'a>) -> Result<(), Refusal>
        requires { Room self.old }
        ensures { Stepped (gone_on (sequel_of token.entry.kind) (view self.old) token.entry.kind token.entry.place) result self.old self.new }
    {
        let sequel = sequel(token.kind).ok_or(refused(token.kind, token.place))?;
        self.close(least_of(sequel));
        self.follow(sequel, token.place)
            .ok_or(Refusal::Unexpected(token.place))
    }
}
