//! The parser where an operand is due.

ghost use Rattle.std.specs.Prelude.{◌≡◌, true, false, [], ◌∷◌, ◌<◌, Ok, IfSome};
ghost use Rattle.language.specs.Fold.{fresh, leaf, opened, enter, enter_whole, opening_of, begun};
ghost use Rattle.language.specs.Frames.{is_body, frame};
ghost use Rattle.language.specs.Names.{position};
ghost use Rattle.reader.specs.Lets.{is_value, due_fits, Opens};
ghost use Rattle.reader.specs.Opened.{frames_of};
ghost use Rattle.reader.specs.Scopes.{held};
ghost use Rattle.reader.specs.Stacks.{opens};
ghost use Rattle.reader.specs.Steps.{view, Room, Stepped};

use crate::kinds::{opening, refused};
use crate::names::Names;
use crate::parser::Parser;
use crate::stack::Stack;
use bytecode::Argument;
use language::{Due, Entry, Frame, Kind, Mark, Opening, Token};
use refusal::Refusal;

impl<'t, 'a> Parser<'t, 'a> {
    /// Nothing is read yet.
    pub(crate) fn new(table: &'t mut [Entry]) -> Parser<'t, 'a>
        ensures view { view result ≡ fresh }
        ensures table { result.table.now ≡ table.old }
        ensures same { result.table.ghost_name ≡ table.entry.ghost_name }
    {
        Parser {
            stack: Stack::new(),
            pending: Names::new(),
            scope: Names::new(),
            due: Due::Operand,
            table,
            count: 0,
        }
    }

    /// Opens a frame.
    pub(crate) fn push(&mut self, mark: Mark, place: usize, whole: usize, due: Due)
        requires open { opens mark (frames_of self.old.stack) ≡ true }
        requires no_value { is_value mark ≡ false }
        requires no_body { is_body mark ≡ false }
        requires fits { due_fits due (frame mark 0 0 0 ∷ []) ≡ true }
        ensures view { view self.new ≡ opened mark place whole due (view self.old) }
        ensures table { self.new.table ≡ self.old.table }
    {
        self.stack.push(Frame {
            mark,
            place,
            whole,
            first: self.count,
        });
        self.due = due;
    }

    // Opens a frame that nests, unless it is the 65th.
    fn enter(&mut self, mark: Mark, place: usize, due: Due) -> Result<(), Refusal>
        requires { Opens mark due }
        ensures { Stepped (enter mark place due (view self.old)) result self.old self.new }
    {
        if self.stack.depth >= 64 {
            return Err(Refusal::TooDeep(place));
        }
        self.push(mark, place, self.count, due);
        Ok(())
    }

    // Opens a frame that stands only where a whole expression may.
    fn enter_whole(&mut self, mark: Mark, place: usize, due: Due) -> Result<(), Refusal>
        requires { Opens mark due }
        ensures { Stepped (enter_whole mark place due (view self.old)) result self.old self.new }
    {
        if self.stack.above() != 0 {
            return Err(Refusal::Unexpected(place));
        }
        self.enter(mark, place, due)
    }

    // An operand of one entry.
    fn leaf(&mut self, kind: Kind, number: Argument, place: usize)
        requires { Room self.old }
        ensures { Stepped (leaf kind number place (view self.old)) (Ok tt) self.old self.new }
    {
        self.put(Entry {
            kind,
            number,
            size: 1,
            place,
        });
        self.due = Due::Operator;
    }

    // The position of a name among those in scope. A method of the parser, since the check has no rule for a call on the field
    // itself in `begin`, whose token holds a part of the text.
    fn position(&self, text: &[u8]) -> Option<usize>
        ensures value { result ≡ position text.now (held self.now.scope) }
        ensures bound { IfSome result (λ i. i < 72) }
    {
        self.scope.position(text)
    }

    /// Takes a token where an operand is due.
    pub(crate) fn begin(&mut self, token: Token<'a>) -> Result<(), Refusal>
        requires { Room self.old }
        ensures { Stepped (begun (opening_of token.entry.kind) (view self.old) token.entry.kind token.entry.place token.entry.text.now) result self.old self.new }
    {
        let place = token.place;
        match opening(token.kind).ok_or(refused(token.kind, place))? {
            Opening::Leaf(kind, number) => self.leaf(kind, number, place),
            Opening::Name => {
                let i = self
                    .position(token.text)
                    .ok_or(Refusal::UnboundName(place))?;
                self.leaf(Kind::Name, Argument::plus(i as u8), place);
            }
            Opening::Nested(mark) => self.enter(mark, place, Due::Operand)?,
            Opening::Whole(mark, due) => self.enter_whole(mark, place, due)?,
        }
        Ok(())
    }
}
