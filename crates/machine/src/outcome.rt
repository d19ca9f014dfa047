//! What a run answers.

use refusal::Refusal;

/// The accumulator at the end of a run, and the steps made.
#[derive(Clone, Copy, PartialEq, Eq, Debug)]
pub struct Finished<W> {
    pub word: W,
    pub steps: usize,
}

/// Why a run ended before the end of the code, and the steps made.
#[derive(Clone, Copy, PartialEq, Eq, Debug)]
pub struct Halt {
    pub refusal: Refusal,
    pub steps: usize,
}
