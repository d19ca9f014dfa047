//! The end of frames: their entries go into the table, as far as it has room.

ghost use Rattle.std.specs.Prelude.{◌≡◌, ◌+◌, ◌^◌, ◌<◌, true, false, [], ◌∷◌, drop, Some, Ok};
ghost use Rattle.language.specs.Fold.{state, ended, endings};
ghost use Rattle.language.specs.Frames.{joint, leaving};
ghost use Rattle.reader.specs.Lets.{is_value, due_fits};
ghost use Rattle.reader.specs.Opened.{frames_of};
ghost use Rattle.reader.specs.Stacks.{top};
ghost use Rattle.reader.specs.Steps.{view, Room, Stepped};

use crate::marks::{ends_at, kind};
use crate::names::Names;
use crate::parser::Parser;
use bytecode::Argument;
use language::{Entry, Frame, Mark};

// The entry that a frame becomes after that many entries.
fn entry_of(frame: Frame, count: usize) -> Entry
    requires { count + 1 < 2 ^ 64 }
    ensures { result ≡ joint frame count }
{
    Entry {
        kind: kind(frame.mark),
        number: Argument::plus(0),
        size: (count + 1).saturating_sub(frame.whole),
        place: frame.place,
    }
}

impl<'t, 'a> Parser<'t, 'a> {
    /// Takes the frame on top off, and the name of a let that so ends out of scope.
    pub(crate) fn pop(&mut self, frame: Frame)
        requires top { top (frames_of self.old.stack) ≡ Some frame }
        requires no_value { is_value frame.mark ≡ false }
        requires fits { due_fits self.old.due (drop 1 (frames_of self.old.stack)) ≡ true }
        ensures view { let s = view self.old in view self.new ≡ state (drop 1 s.frames) s.pending (leaving frame.mark s.scope) s.due s.count }
        ensures table { self.new.table ≡ self.old.table }
    {
        if frame.mark == Mark::Body {
            self.scope.pop();
        }
        self.stack.pop();
    }

    /// Adds an entry, which the table gets where it has room.
    // By its index, since a proof does not know what a write through `get_mut` leaves in the slice.
    pub(crate) fn put(&mut self, entry: Entry)
        requires { Room self.old }
        ensures { let s = view self.old in Stepped (Ok (state s.frames s.pending s.scope s.due (s.count + 1), entry ∷ [])) (Ok tt) self.old self.new }
    {
        let at = self.count;
        if at < self.table.len() {
            self.table[at] = entry;
        }
        self.count = at + 1;
    }

    /// Ends each frame on top that binds at the level.
    pub(crate) fn close(&mut self, least: usize)
        requires { Room self.old }
        ensures { Stepped (Ok (ended least (view self.old), endings least (view self.old))) (Ok tt) self.old self.new }
    {
        while let Some(frame) = self.stack.top() {
            if !ends_at(least, frame.mark) {
                break;
            }
            self.put(entry_of(frame, self.count));
            self.pop(frame);
        }
    }
}
