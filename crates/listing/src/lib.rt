//! Code as text: a line for each word of a code memory.

#![tactic(auto)]

mod lines;

ghost use Rattle.std.specs.Prelude.{◌≡◌, ◌≤◌, length, IsOkAnd};
ghost use Rattle.listing.specs.Lines.{listing};
ghost use Rattle.listing.specs.Output.{answer_of, output_of, size_of, instruction_at};

use bytecode::Instruction;
use lines::line;
use memory::CodeMemory;
use refusal::Refusal;

// The instruction at a place of the code, unless the word there is none.
fn instruction_at<M: CodeMemory>(memory: &M, place: usize) -> Result<Instruction, Refusal>
    ensures { result ≡ instruction_at (M.CodeMemory.listed memory.now) place }
{
    memory
        .at(place)
        .and_then(|word| word.instruction())
        .ok_or(Refusal::BadWord(place))
}

// The bytes that the listing takes. A memory answers by place and gives no iterator; a fold over the places would be no
// plainer, since its closure would carry the sum and the refusal.
fn needed<M: CodeMemory>(memory: &M) -> Result<usize, Refusal>
    ensures { result ≡ size_of (listing 0 (M.CodeMemory.listed memory.now)) }
{
    let mut bytes = 0;
    for place in 0..memory.count() {
        bytes += line(place, instruction_at(memory, place)?).len();
    }
    Ok(bytes)
}

// Writes the lines of all words into an output that has room for them, place by place too, and returns the bytes written.
fn put_lines<M: CodeMemory>(memory: &M, out: &mut [u8]) -> Result<usize, Refusal>
    requires { IsOkAnd (listing 0 (M.CodeMemory.listed memory.now)) (λ text. length text ≤ length out.old) }
    ensures answer { result ≡ answer_of (listing 0 (M.CodeMemory.listed memory.now)) (length out.old) }
    ensures output { out.new ≡ output_of (listing 0 (M.CodeMemory.listed memory.now)) out.old }
{
    let mut end = 0;
    for place in 0..memory.count() {
        let line = line(place, instruction_at(memory, place)?);
        let start = end;
        end += line.len();
        out[start..end].copy_from_slice(line.as_bytes());
    }
    Ok(end)
}

/// Writes a line for each word of the memory and returns the bytes written; the output behind them is as it was. It
/// refuses the first word that is no instruction, and then an output that is too short; a refusal alters no byte.
pub fn list<M: CodeMemory>(memory: &M, out: &mut [u8]) -> Result<usize, Refusal>
    ensures answer { result ≡ answer_of (listing 0 (M.CodeMemory.listed memory.now)) (length out.old) }
    ensures output { out.new ≡ output_of (listing 0 (M.CodeMemory.listed memory.now)) out.old }
{
    let needed = needed(memory)?;
    if needed > out.len() {
        return Err(Refusal::OutputTooShort(needed));
    }
    put_lines(memory, out)
}

#[cfg(test)]
mod tests;
