//! What there is to know of the code of a table before it is written.

/// How many words the code has, how many words of its own it puts on the stack at once, and the place of the first if
/// with a branch too long for a jump.
#[derive(Clone, Copy, PartialEq, Eq, Debug, Default)]
pub struct Shape {
    pub length: usize,
    pub tall: usize,
    pub wide: Option<usize>,
}

impl Shape {
    /// A single word.
    pub(crate) const WORD: Shape = Shape {
        length: 1,
        tall: 0,
        wide: None,
    };
}
