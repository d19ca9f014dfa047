//! The stack of frames.

ghost use Rattle.std.specs.Prelude.{◌≡◌, ◌≤◌, true, reverse};
ghost use Rattle.language.specs.Frames.{deep};
ghost use Rattle.reader.specs.Stacks.{shaped};

use arrayvec::ArrayVec;
use language::Frame;

/// The open frames, and how many of them nest. On each nested frame, and on none, stand at most five operators, one of
/// each level, so 64 nested frames and 325 operators are the most.
#[derive(Drop)]
pub struct Stack {
    pub frames: ArrayVec<Frame, 389>,
    pub depth: usize,
    ghost nested: { depth ≡ deep (reverse frames.items) },
    ghost shallow: { depth ≤ 64 },
    ghost shaped: { shaped (reverse frames.items) ≡ true },
}
