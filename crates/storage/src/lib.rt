//! Operations on a code memory, one after another, and what they come to.

#![tactic(auto)]

mod written;

ghost use Rattle.std.specs.Prelude.{◌≡◌, ◌<◌, [], length, take, drop, slice_set};
ghost use Rattle.std.specs.List.{slice_get};
ghost use Rattle.storage.specs.Ledger.{performed, done, ledger, Told};

use bytecode::Word;
use memory::CodeMemory;
pub use written::write_all;

/// What can be asked of a code memory.
// A value and no closure: a list of these is what a caller asks, and what the ledger reads.
#[derive(Clone, Copy, PartialEq, Eq, Debug)]
pub enum Operation {
    Append(Word),
    Clear,
}

// Whether the operation was done.
fn perform<M: CodeMemory>(memory: &mut M, operation: Operation) -> bool
    ensures same { M.CodeMemory.room memory.new ≡ M.CodeMemory.room memory.old }
    ensures after { M.CodeMemory.listed memory.new ≡ performed (M.CodeMemory.room memory.old) (M.CodeMemory.listed memory.old) operation }
    ensures answer { result ≡ done (M.CodeMemory.room memory.old) (M.CodeMemory.listed memory.old) operation }
{
    match operation {
        Operation::Append(word) => memory.append(word).is_ok(),
        Operation::Clear => {
            memory.clear();
            true
        }
    }
}

// Writes an answer at its place, if there is one. By its index, since a proof does not know what a write through `get_mut`
// leaves in the slice.
fn write_answer(answers: &mut [bool], i: usize, answer: bool)
    ensures { answers.new ≡ slice_set answers.old i answer }
{
    if i < answers.len() {
        answers[i] = answer;
    }
}

/// Empties the memory, performs the operations one after another, and writes whether each was done, as far as the
/// answers reach. The memory then lists the words asked for since the last clear, as many as it has room for.
pub fn operate<M: CodeMemory>(memory: &mut M, operations: &[Operation], answers: &mut [bool])
    ensures same { M.CodeMemory.room memory.new ≡ M.CodeMemory.room memory.old }
    ensures after { M.CodeMemory.listed memory.new ≡ take (M.CodeMemory.room memory.old) (ledger operations.now) }
    ensures told { Told (M.CodeMemory.room memory.old) operations.now answers.new }
    ensures rest { drop (length operations.now) answers.new ≡ drop (length operations.now) answers.old }
{
    memory.clear();
    // The answers lie in a slice that the caller lends, since there is no heap. They may be fewer than the operations, so
    // none is taken with its operation by `zip`.
    for (i, operation) in operations.iter().enumerate() {
        let answer = perform(memory, *operation);
        write_answer(answers, i, answer);
    }
}

/// What the memory answers at a place after it is emptied and the operations are performed.
pub fn recall<M: CodeMemory>(memory: &mut M, operations: &[Operation], place: usize) -> Option<Word>
    ensures { result ≡ slice_get (take (M.CodeMemory.room memory.old) (ledger operations.now)) place }
{
    operate(memory, operations, &mut []);
    memory.at(place)
}

#[cfg(test)]
mod tests;
