//! What is known of a rule while its tokens come in.

ghost use Rattle.std.specs.Prelude.{◌≡◌, true, length};
ghost use Rattle.reader.specs.Lets.{values, bodies, due_fits};
ghost use Rattle.reader.specs.Opened.{frames_of};
ghost use Rattle.reader.specs.Scopes.{held};

use crate::names::Names;
use crate::stack::Stack;
use language::{Due, Entry};

/// The open frames, the names of lets whose first expression is open, the names in scope, what is due, the table, and
/// how many entries there are.
#[derive(Drop)]
pub struct Parser<'t, 'a> {
    pub stack: Stack,
    pub pending: Names<'a>,
    pub scope: Names<'a>,
    pub due: Due,
    // The table is lent, and may be shorter than the entries that are counted.
    pub table: &'t mut [Entry],
    pub count: usize,
    ghost valued: { length (held pending) ≡ values (frames_of stack) },
    ghost bodied: { length (held scope) ≡ bodies (frames_of stack) },
    ghost expected: { due_fits due (frames_of stack) ≡ true },
}
