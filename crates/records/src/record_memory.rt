//! A code memory in 64 records of 16 bytes.

ghost use Rattle.std.specs.Prelude.{◌≡◌, ℕ, ◌<◌, ◌≤◌, [], slice_index, MatchOption};
ghost use Rattle.std.specs.List.{slice_get};
ghost use Rattle.memory.specs.Lists.{answered, appended};
ghost use Rattle.records.specs.Layout.{count, records_for, reached, code, blank};
ghost use Rattle.records.specs.Writes.{appended_in, cleared_in};
ghost use Rattle.records.specs.Steps.{Stands, Found, index_after};

use crate::bytes::{add_word, blank_bytes, clear_words, count_in};
use crate::cursor::Cursor;
use bytecode::Word;
use memory::CodeMemory;
use refusal::Refusal;

/// The records, and beside them what need not be looked for again: the rule's last record, and where the last word was
/// fetched.
// Bytes, and records by number in them, since the format is fixed to the byte.
#[derive(Drop)]
pub struct RecordMemory {
    bytes: [u8; 1024],
    last: usize,
    cursor: Cursor,
    ghost chains: { Stands bytes last },
    ghost within: { cursor.index ≤ records_for (count bytes) },
    ghost stands: { cursor.record ≡ reached bytes cursor.index },
}

impl RecordMemory {
    /// No word, and the records 1 to 63 free in the order of their numbers.
    pub fn new() -> RecordMemory
        ensures bytes { (k : ℕ) → slice_index result.bytes k ≡ blank 63 k }
        ensures none { code result.bytes ≡ [] }
    {
        RecordMemory {
            bytes: blank_bytes(),
            last: 0,
            cursor: Cursor::HEAD,
        }
    }

    /// The bytes as they stand.
    pub fn bytes(&self) -> &[u8; 1024]
        ensures { result.now ≡ self.now.bytes }
    {
        &self.bytes
    }

    // The record to which `index` links lead from record 0, found by going on from a cursor. A loop, since the closure of
    // a `fold` would need a condition of its own.
    fn walk(&self, from: Cursor, index: usize) -> usize
        requires before { from.index ≤ index }
        requires within { index ≤ records_for (count self.now.bytes) }
        requires stands { from.record ≡ reached self.now.bytes from.index }
        ensures is { result ≡ reached self.now.bytes index }
        ensures within { result < 64 }
    {
        let mut r = from.record;
        for _i in from.index..index {
            r = usize::from(self.bytes[16 * r]);
        }
        r
    }

    // The word at a place, and where it was found, or none past the end. The walk begins at the cursor unless the place
    // lies before it.
    #[tactic(auto, using(crate::proofs::Operations::codes))]
    fn find(&self, place: usize) -> Option<(Word, Cursor)>
        ensures { MatchOption result (count self.now.bytes ≤ place) (λ r. Found self.now.bytes place r.0 r.1) }
    {
        if place >= self.count() {
            return None;
        }
        let index = place / 5 + 1;
        let from = if self.cursor.index <= index {
            self.cursor
        } else {
            Cursor::HEAD
        };
        let record = self.walk(from, index);
        let (words, _) = self.bytes[16 * record + 1..16 * record + 16].as_chunks::<3>();
        Some((Word::from(words[place % 5]), Cursor { record, index }))
    }
}

#[tactic(auto, using(crate::proofs::Operations::codes))]
impl CodeMemory for RecordMemory {
    ghost listed = { λ m. code m.bytes };

    ghost room = { λ _. 315 };

    fn count(&self) -> usize {
        usize::from(count_in(&self.bytes))
    }

    fn capacity(&self) -> usize {
        315
    }

    fn at(&self, place: usize) -> Option<Word> {
        let (word, _) = self.find(place)?;
        Some(word)
    }

    /// No byte is altered. The memory remembers the record that holds the place, and reads on from there: from word to
    /// word it follows at most one link.
    fn fetch(&mut self, place: usize) -> Option<Word>
        ensures answer { result ≡ slice_get (code self.old.bytes) place }
        ensures after { code self.new.bytes ≡ code self.old.bytes }
        ensures bytes { self.new.bytes ≡ self.old.bytes }
        ensures index { self.new.cursor.index ≡ index_after self.old.bytes self.old.cursor.index place }
    {
        let (word, cursor) = self.find(place)?;
        self.cursor = cursor;
        Some(word)
    }

    /// The bytes are then those of `appended_in`, so that no other is altered, and none by a refusal.
    fn append(&mut self, word: Word) -> Result<(), Refusal>
        ensures answer { result ≡ answered (code self.old.bytes) 315 }
        ensures after { code self.new.bytes ≡ appended (code self.old.bytes) 315 word }
        ensures bytes { self.new.bytes ≡ appended_in self.old.bytes word }
    {
        if self.count() == 315 {
            return Err(Refusal::MemoryFull(315));
        }
        self.last = add_word(&mut self.bytes, self.last, word);
        Ok(())
    }

    /// The bytes are then those of `cleared_in`, so that no other is altered.
    fn clear(&mut self)
        ensures after { code self.new.bytes ≡ [] }
        ensures bytes { self.new.bytes ≡ cleared_in self.old.bytes }
    {
        clear_words(&mut self.bytes, self.last);
        self.last = 0;
        self.cursor = Cursor::HEAD;
    }
}
