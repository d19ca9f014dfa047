//! What a code memory answers and does, whatever it is made of.

ghost use Rattle.std.specs.Prelude.{◌≡◌, ℕ, ◌≤◌, List, [], length};
ghost use Rattle.std.specs.List.{slice_get};
ghost use Rattle.bytecode.specs.declared.instruction.Word.{Word};
ghost use Rattle.memory.specs.Lists.{answered, appended};

use bytecode::Word;
use refusal::Refusal;

/// A list of words, with room for at most 65,535 of them. The room never changes.
// Each method that takes a memory as `&mut` says so, and what becomes of the list, and so does each generic function of
// the crates above: a caller knows no more of a call than its clauses.
pub trait CodeMemory {
    ghost listed: { Self → List Word };

    ghost room: { Self → ℕ };

    /// How many words it holds.
    fn count(&self) -> usize
        ensures value { result ≡ length (listed self.now) }
        ensures within { result ≤ room self.now }
        ensures bounded { room self.now ≤ 65535 };

    /// How many words it has room for.
    fn capacity(&self) -> usize
        ensures value { result ≡ room self.now }
        ensures bounded { room self.now ≤ 65535 };

    /// The word at a place, or none past the end.
    fn at(&self, place: usize) -> Option<Word>
        ensures { result ≡ slice_get (listed self.now) place };

    /// Answers as `at` does. A memory may remember the place, so that reading forward needs no search from the start.
    fn fetch(&mut self, place: usize) -> Option<Word>
        ensures answer { result ≡ slice_get (listed self.old) place }
        ensures same { room self.new ≡ room self.old }
        ensures after { listed self.new ≡ listed self.old }
    {
        self.at(place)
    }

    /// Adds a word at the end. It refuses, and changes nothing, exactly when the memory is full.
    fn append(&mut self, word: Word) -> Result<(), Refusal>
        ensures same { room self.new ≡ room self.old }
        ensures answer { result ≡ answered (listed self.old) (room self.old) }
        ensures after { listed self.new ≡ appended (listed self.old) (room self.old) word };

    /// Empties the list.
    fn clear(&mut self)
        ensures same { room self.new ≡ room self.old }
        ensures after { listed self.new ≡ [] };
}
