//! Where a reader stands in the rule's chain.

/// A record, and how many links lead to it from record 0.
#[derive(Clone, Copy, PartialEq, Eq, Debug)]
pub struct Cursor {
    pub record: usize,
    pub index: usize,
}

impl Cursor {
    /// Before the rule's first record.
    pub const HEAD: Cursor = Cursor {
        record: 0,
        index: 0,
    };
}
