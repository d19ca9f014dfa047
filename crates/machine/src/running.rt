//! A run of the machine.

ghost use Rattle.std.specs.Prelude.{◌≡◌, ◌≤◌, length, take};
ghost use Rattle.machine.specs.Runs.{answer as answer_of, left, ran, answered, stack_after};
ghost use Rattle.machine.specs.Processors.{runs_on};

use crate::outcome::{Finished, Halt};
use crate::processor::Processor;
use crate::step::{step, zero};
use arithmetic::Arithmetic;
use memory::CodeMemory;
use refusal::Refusal;

// The rest of a run, up to the end of the code.
fn finish<M: CodeMemory, A: Arithmetic>(
    memory: &mut M,
    processor: &mut Processor<A::Word>,
    budget: usize,
) -> Result<Finished<A::Word>, Halt>
    requires { processor.old.end ≡ length (M.CodeMemory.listed memory.old) }
    ensures answer { result ≡ answer_of (runs_on A.Arithmetic.ops (M.CodeMemory.listed memory.old) budget processor.old 0) }
    ensures words { processor.new.words.now ≡ left (runs_on A.Arithmetic.ops (M.CodeMemory.listed memory.old) budget processor.old 0) }
    ensures same { processor.new.words.ghost_name ≡ processor.old.words.ghost_name }
    ensures room { M.CodeMemory.room memory.new ≡ M.CodeMemory.room memory.old }
    ensures code { M.CodeMemory.listed memory.new ≡ M.CodeMemory.listed memory.old }
{
    for steps in 0..budget {
        if let Some(finished) = processor.finished(steps) {
            return Ok(finished);
        }
        step::<M, A>(memory, processor).map_err(|refusal| Halt { refusal, steps })?;
    }
    processor.finished(budget).ok_or(Halt {
        refusal: Refusal::BudgetSpent(processor.next),
        steps: budget,
    })
}

// A run on the words above the base, which begins with the first `height` of them.
fn run_above<M: CodeMemory, A: Arithmetic>(
    memory: &mut M,
    words: &mut [A::Word],
    height: usize,
    budget: usize,
) -> Result<Finished<A::Word>, Halt>
    requires { height ≤ length words.old }
    ensures answer { result ≡ answer_of (ran A.Arithmetic.ops (M.CodeMemory.listed memory.old) words.old 0 height budget) }
    ensures words { words.new ≡ left (ran A.Arithmetic.ops (M.CodeMemory.listed memory.old) words.old 0 height budget) }
    ensures room { M.CodeMemory.room memory.new ≡ M.CodeMemory.room memory.old }
    ensures code { M.CodeMemory.listed memory.new ≡ M.CodeMemory.listed memory.old }
{
    let mut processor = Processor {
        words,
        height,
        word: zero::<A>(),
        place: 0,
        next: 0,
        end: memory.count(),
    };
    let answer = finish::<M, A>(memory, &mut processor, budget);
    // The words go back to the caller.
    let Processor { words: _back, .. } = processor;
    answer
}

/// Runs the code from place 0, with the word for 0 in the accumulator and `height` words above the base, until the place is
/// the end of the code. A refusal says at which word it came; what the steps before it wrote stands.
#[tactic(auto, using(crate::proofs::Bases::based, std::proofs::lemmas::Grind::common_steps))]
pub fn run<M: CodeMemory, A: Arithmetic>(
    memory: &mut M,
    stack: &mut [A::Word],
    base: usize,
    height: usize,
    budget: usize,
) -> Result<Finished<A::Word>, Halt>
    ensures answer { result ≡ answered A.Arithmetic.ops (M.CodeMemory.listed memory.old) stack.old base height budget }
    ensures words { stack.new ≡ stack_after A.Arithmetic.ops (M.CodeMemory.listed memory.old) stack.old base height budget }
    ensures below { take base stack.new ≡ take base stack.old }
    ensures room { M.CodeMemory.room memory.new ≡ M.CodeMemory.room memory.old }
    ensures code { M.CodeMemory.listed memory.new ≡ M.CodeMemory.listed memory.old }
{
    let short = Halt {
        refusal: Refusal::StackTooShort,
        steps: 0,
    };
    let room = stack.len().checked_sub(base).ok_or(short)?;
    if room < height {
        return Err(short);
    }
    run_above::<M, A>(memory, &mut stack[base..], height, budget)
}
