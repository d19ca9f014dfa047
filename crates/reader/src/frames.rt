//! Putting frames on the stack and taking them off.

ghost use Rattle.std.specs.Prelude.{◌≡◌, true, [], ◌∷◌, drop};
ghost use Rattle.language.specs.Fold.{remarked};
ghost use Rattle.language.specs.Frames.{start, above, nests as nests_by};
ghost use Rattle.reader.specs.Stacks.{top, opens, top_nests};
ghost use Rattle.reader.specs.Opened.{frames_of};

use crate::marks::{level, nests};
use crate::stack::Stack;
use arrayvec::ArrayVec;
use language::{Frame, Mark};

impl Stack {
    /// No frames.
    pub(crate) fn new() -> Stack
        ensures { frames_of result ≡ [] }
    {
        Stack {
            frames: ArrayVec::new(),
            depth: 0,
        }
    }

    /// The frame on top.
    pub(crate) fn top(&self) -> Option<Frame>
        ensures { result ≡ top (frames_of self.now) }
    {
        self.frames.last().copied()
    }

    /// How tightly the frame on top holds what follows it.
    pub(crate) fn above(&self) -> usize
        ensures { result ≡ above (frames_of self.now) }
    {
        self.top().map_or(0, |frame| level(frame.mark))
    }

    /// How many entries stand before those of the operand that is open.
    pub(crate) fn start(&self) -> usize
        ensures { result ≡ start (frames_of self.now) }
    {
        self.top().map_or(0, |frame| frame.first)
    }

    /// Puts a frame on top.
    pub(crate) fn push(&mut self, frame: Frame)
        requires { opens frame.mark (frames_of self.old) ≡ true }
        ensures { frames_of self.new ≡ frame ∷ frames_of self.old }
    {
        self.depth += usize::from(nests(frame.mark));
        self.frames.push(frame);
    }

    /// Takes the frame on top off.
    pub(crate) fn pop(&mut self)
        ensures { frames_of self.new ≡ drop 1 (frames_of self.old) }
    {
        if let Some(frame) = self.frames.pop() {
            self.depth -= usize::from(nests(frame.mark));
        }
    }

    /// Gives the nested frame on top another mark, also of a nested frame, before entries that come after `first`.
    // Off and on again, since a proof does not know what a write through `last_mut` leaves in the vector.
    pub(crate) fn remark(&mut self, mark: Mark, first: usize)
        requires top { top_nests (frames_of self.old) ≡ true }
        requires mark { nests_by mark ≡ true }
        ensures { frames_of self.new ≡ remarked mark first (frames_of self.old) }
    {
        if let Some(frame) = self.frames.pop() {
            self.frames.push(Frame {
                mark,
                first,
                ..frame
            });
        }
    }
}
