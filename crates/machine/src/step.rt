//! One step of the machine.

ghost use Rattle.std.specs.Prelude.{◌≡◌, ◌<◌};
ghost use Rattle.std.specs.List.{slice_get};
ghost use Rattle.bytecode.specs.Words.{plus as argument};
ghost use Rattle.arithmetic.specs.Words.{truth as truth_of, naught};
ghost use Rattle.machine.specs.Processors.{Did, Stepped};
ghost use Rattle.machine.specs.Steps.{either as either_of, branched_if, performed, read_as, fetch, step as step_of};

use crate::processor::Processor;
use arithmetic::Arithmetic;
use bytecode::{Argument, Instruction};
use memory::CodeMemory;
use refusal::Refusal;

// The word for a number from 0 up.
fn small<A: Arithmetic>(size: u8) -> A::Word
    ensures { result ≡ A.Arithmetic.ops.number (argument size) }
{
    A::number(Argument::plus(size))
}

/// The word for 0.
pub(crate) fn zero<A: Arithmetic>() -> A::Word
    ensures { result ≡ naught A.Arithmetic.ops }
{
    small::<A>(0)
}

// The word for 1 if so, else the word for 0.
fn truth<A: Arithmetic>(so: bool) -> A::Word
    ensures { result ≡ truth_of A.Arithmetic.ops so }
{
    if so { small::<A>(1) } else { zero::<A>() }
}

// The word for 0 if both words are it, else the word for 1.
fn either<A: Arithmetic>(top: A::Word, word: A::Word) -> A::Word
    ensures { result ≡ either_of A.Arithmetic.ops top word }
{
    let neither = A::same(top, zero::<A>()) && A::same(word, zero::<A>());
    truth::<A>(!neither)
}

// Goes on at its own place plus `k` if the accumulator is not the word for 0.
fn branch_if<A: Arithmetic>(processor: &mut Processor<A::Word>, k: Argument) -> Result<(), Refusal>
    ensures { Did (branched_if A.Arithmetic.ops processor.old.end k processor.old.next) processor.old processor.new result }
{
    if A::same(processor.word, zero::<A>()) {
        Ok(())
    } else {
        processor.branch(k)
    }
}

// One instruction. A closure calls `plus` and `times`, since neither is proved where it is passed by name.
fn perform<A: Arithmetic>(
    processor: &mut Processor<A::Word>,
    instruction: Instruction,
) -> Result<(), Refusal>
    ensures { Did (performed A.Arithmetic.ops processor.old.end instruction processor.old.next) processor.old processor.new result }
{
    match instruction {
        Instruction::Push => processor.push(),
        Instruction::Addi => processor.merge(|top, word| A::plus(top, word)),
        Instruction::Eqi => processor.merge(|top, word| Ok(truth::<A>(A::same(top, word)))),
        Instruction::Ori => processor.merge(|top, word| Ok(either::<A>(top, word))),
        Instruction::Consti(k) => processor.load(A::number(k)),
        Instruction::Pop => processor.merge(|top, _| Ok(top)),
        Instruction::Acc(k) => processor.peek(k),
        Instruction::Popi(k) => processor.discard(k),
        Instruction::Branch(k) => processor.branch(k),
        Instruction::Branchif(k) => branch_if::<A>(processor, k),
        Instruction::Assign(k) => processor.assign(k),
        Instruction::Multi => processor.merge(|top, word| A::times(top, word)),
        Instruction::Leqi => processor.merge(|top, word| Ok(truth::<A>(A::at_most(top, word)))),
    }
}

// The instruction at a place of the code.
fn read<M: CodeMemory>(memory: &mut M, place: usize) -> Option<Instruction>
    ensures answer { result ≡ read_as (slice_get (M.CodeMemory.listed memory.old) place) }
    ensures room { M.CodeMemory.room memory.new ≡ M.CodeMemory.room memory.old }
    ensures code { M.CodeMemory.listed memory.new ≡ M.CodeMemory.listed memory.old }
{
    memory.fetch(place)?.instruction()
}

/// One step, from where the processor goes on.
pub(crate) fn step<M: CodeMemory, A: Arithmetic>(
    memory: &mut M,
    processor: &mut Processor<A::Word>,
) -> Result<(), Refusal>
    requires { processor.old.next < processor.old.end }
    ensures did { Stepped (step_of A.Arithmetic.ops processor.old.end (fetch (M.CodeMemory.listed memory.old))) processor.old.next processor.old processor.new result }
    ensures room { M.CodeMemory.room memory.new ≡ M.CodeMemory.room memory.old }
    ensures code { M.CodeMemory.listed memory.new ≡ M.CodeMemory.listed memory.old }
{
    let place = processor.next;
    processor.place = place;
    processor.next = place + 1;
    let instruction = read(memory, place).ok_or(Refusal::BadWord(place))?;
    perform::<A>(processor, instruction)
}
