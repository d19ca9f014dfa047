//! What the chains come to, for a reader of the bytes.

ghost use Rattle.records.specs.Chains.{Sound, AppendMoves, ClearMoves};

use crate::record_memory::RecordMemory;

impl RecordMemory {
    /// Each record but 0 is in exactly one of the two chains, once. The call does nothing: its contract is the fact.
    pub fn is_sound(&self)
        ensures { Sound self.now.bytes }
    {}
}

/// How appending and clearing move records from chain to chain. The call does nothing: its contract is the fact.
pub fn chains_move()
    ensures append { AppendMoves }
    ensures clear { ClearMoves }
{}
