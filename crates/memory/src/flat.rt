//! A code memory over bytes that are handed over.

ghost use Rattle.std.specs.Prelude.{◌≡◌, ℕ, ◌≤◌, List, [], length, MatchResult};
ghost use Rattle.std.specs.List.{slice_get};
ghost use Rattle.memory.specs.Lists.{answered, appended};
ghost use Rattle.memory.specs.Flat.{words, room_in, put_in};

use crate::CodeMemory;
use bytecode::Word;
use refusal::Refusal;

/// The word at place i is bytes 3i to 3i + 2.
// The number of words stands beside the bytes, since all of these are the caller's.
#[derive(Drop)]
pub struct Flat<'a> {
    bytes: &'a mut [u8],
    used: u16,
    ghost fits: { used ≤ room_in bytes.now },
}

impl<'a> Flat<'a> {
    /// An empty memory over these bytes. It has room for as many words as the bytes hold whole, up to 4,096. No byte is altered.
    pub fn new(bytes: &'a mut [u8]) -> Flat<'a>
        ensures bytes { result.bytes.now ≡ bytes.old }
        ensures used { result.used ≡ 0 }
        ensures empty { words result.bytes.now result.used ≡ [] }
        ensures lent { result.bytes.ghost_name ≡ bytes.entry.ghost_name }
    {
        Flat { bytes, used: 0 }
    }
}

#[tactic(auto, using(crate::proofs::Flats::flats))]
impl<'a> CodeMemory for Flat<'a> {
    ghost listed = { λ m. words m.bytes.now m.used };

    ghost room = { λ m. room_in m.bytes.now };

    fn count(&self) -> usize {
        usize::from(self.used)
    }

    fn capacity(&self) -> usize {
        (self.bytes.len() / 3).min(4096)
    }

    fn at(&self, place: usize) -> Option<Word> {
        let (words, _) = self.bytes[..3 * self.count()].as_chunks::<3>();
        let bytes = words.get(place)?;
        Some(Word::from(*bytes))
    }

    /// On success the three bytes of the new word are its own, and no other byte is altered; a refusal alters none.
    fn append(&mut self, word: Word) -> Result<(), Refusal>
        ensures same { room_in self.new.bytes.now ≡ room_in self.old.bytes.now }
        ensures answer { result ≡ answered (words self.old.bytes.now self.old.used) (room_in self.old.bytes.now) }
        ensures after { words self.new.bytes.now self.new.used ≡ appended (words self.old.bytes.now self.old.used) (room_in self.old.bytes.now) word }
        ensures bytes { self.new.bytes.now ≡ put_in self.old.bytes.now self.old.used word }
        ensures lent { self.new.bytes.ghost_name ≡ self.old.bytes.ghost_name }
    {
        let capacity = self.capacity();
        let place = self.count();
        if place == capacity {
            return Err(Refusal::MemoryFull(capacity));
        }
        let at = 3 * place;
        self.bytes[at..at + 3].copy_from_slice(&<[u8; 3]>::from(word));
        self.used += 1;
        Ok(())
    }

    /// No byte is altered.
    fn clear(&mut self)
        ensures same { room_in self.new.bytes.now ≡ room_in self.old.bytes.now }
        ensures after { words self.new.bytes.now self.new.used ≡ [] }
        ensures bytes { self.new.bytes.now ≡ self.old.bytes.now }
        ensures lent { self.new.bytes.ghost_name ≡ self.old.bytes.ghost_name }
    {
        self.used = 0;
    }
}
