//! Writing the words of a table's tree.

ghost use Rattle.std.specs.Prelude.{◌≡◌, ◌+◌, ◌^◌, ◌<◌, ◌≤◌, min, List, [], ◌∷◌, length, reverse};
ghost use Rattle.bytecode.specs.Words.{plus, written};
ghost use Rattle.bytecode.specs.declared.instruction.Instruction.TheVariants.{Push, Consti, Branch, Branchif};
ghost use Rattle.compiler.specs.Emitting.{Adds, Emits};

use crate::layout::Layout;
use bytecode::{Argument, Instruction};
use language::Entry;
use memory::CodeMemory;
use parts::{Node, root};
use refusal::Refusal;
use shapes::measure;

// A number as an instruction holds it. The code of a rule that is accepted has none over 255.
fn byte(n: usize) -> u8
    ensures { result ≡ min n 255 }
{
    u8::try_from(n).unwrap_or(255)
}

// The two jumps of an if are two functions, since they differ in the instruction and in the words that they count.

// The jump behind a condition: over the else code, of this many words, and the jump behind it.
fn over_else(words: usize) -> Instruction
    requires { words < 2 ^ 62 }
    ensures { result ≡ Branchif (plus (min (words + 2) 255)) }
{
    Instruction::Branchif(Argument::plus(byte(words + 2)))
}

// The jump behind the else code: over the then code, of this many words.
fn over_then(words: usize) -> Instruction
    requires { words < 2 ^ 62 }
    ensures { result ≡ Branch (plus (min (words + 1) 255)) }
{
    Instruction::Branch(Argument::plus(byte(words + 1)))
}

// Adds an instruction to the code.
fn put<M: CodeMemory>(memory: &mut M, instruction: Instruction) -> Result<(), Refusal>
    ensures same { M.room memory.new ≡ M.room memory.old }
    ensures adds { Adds (M.room memory.old) result (M.listed memory.old) (M.listed memory.new) (written instruction ∷ []) }
{
    memory.append(instruction.encode())
}

// Pushes the accumulator, and works a constant in.
fn put_constant<M: CodeMemory>(
    memory: &mut M,
    constant: Argument,
    instruction: Instruction,
) -> Result<(), Refusal>
    ensures same { M.room memory.new ≡ M.room memory.old }
    ensures adds { Adds (M.room memory.old) result (M.listed memory.old) (M.listed memory.new) (written Push ∷ (written (Consti constant) ∷ (written instruction ∷ []))) }
{
    put(memory, Instruction::Push)?;
    put(memory, Instruction::Consti(constant))?;
    put(memory, instruction)
}

/// Adds the code of the tree in the table to the memory, over a stack that is laid out so; the layout is left as it
/// was. An if measures its two branches before it writes them, so a part is measured once for each if around it.
pub(crate) fn emit<M: CodeMemory>(
    entries: &[Entry],
    layout: &mut Layout,
    memory: &mut M,
) -> Result<(), Refusal>
    requires { layout.old.height + length entries.now ≤ 520 }
    ensures height { layout.new.height ≡ layout.old.height }
    ensures spots { layout.new.spots ≡ layout.old.spots }
    ensures same { M.room memory.new ≡ M.room memory.old }
    ensures value { Emits entries.now (reverse layout.old.spots.items) layout.old.height (M.room memory.old) result (M.listed memory.old) (M.listed memory.new) }
{
    match root(entries) {
        None => Ok(()),
        Some(Node::Number(constant) | Node::Truth(constant)) => {
            put(memory, Instruction::Consti(constant))
        }
        Some(Node::Name(position, _)) => {
            let above = byte(layout.above(position));
            put(memory, Instruction::Acc(above))
        }
        Some(Node::Prefix(operator, _, part)) => {
            emit(part, layout, memory)?;
            let row = operator.row();
            put_constant(memory, row.constant, row.instruction)
        }
        Some(Node::Binary(operator, _, first, second)) => {
            emit(first, layout, memory)?;
            put(memory, Instruction::Push)?;
            layout.wait();
            let done = emit(second, layout, memory);
            layout.resume();
            done?;
            put(memory, operator.row().instruction)
        }
        Some(Node::If(_, test, first, second)) => {
            emit(test, layout, memory)?;
            put(memory, over_else(measure(second).length))?;
            emit(second, layout, memory)?;
            put(memory, over_then(measure(first).length))?;
            emit(first, layout, memory)
        }
        Some(Node::Let(value, body)) => {
            emit(value, layout, memory)?;
            put(memory, Instruction::Push)?;
            layout.bind();
            let done = emit(body, layout, memory);
            layout.unbind();
            done?;
            put(memory, Instruction::Popi(1))
        }
    }
}
