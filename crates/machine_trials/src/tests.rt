use arithmetic::{Arithmetic, Ranged, Round};
use bytecode::Word;
use machine::{Finished, Halt, run};
use memory::{CodeMemory, Flat};
use refusal::Refusal;

const PUSH: Word = Word {
    opcode: 0,
    sign: 0,
    value: 0,
};

// In the tests of two crates, since neither is a library of the other's tests.
fn fill<M: CodeMemory>(memory: &mut M, words: &[Word]) {
    for word in words {
        let _ = memory.append(*word);
    }
}

// Runs the words on a stack with one word below the base.
fn outcome<A: Arithmetic>(
    words: &[Word],
    stack: &mut [A::Word],
    height: usize,
    budget: usize,
) -> Result<Finished<A::Word>, Halt> {
    let mut bytes = [0; 60];
    let mut memory = Flat::new(&mut bytes);
    fill(&mut memory, words);
    run::<Flat, A>(&mut memory, stack, 1, height, budget)
}

fn refused(words: &[Word], budget: usize) -> Result<Finished<u16>, Halt> {
    let mut stack = [9, 7, 5, 0];
    outcome::<Round>(words, &mut stack, 2, budget)
}

fn halted(refusal: Refusal, steps: usize) -> Result<Finished<u16>, Halt> {
    Err(Halt { refusal, steps })
}

// Every instruction once at least. The word 7 words before the end is none, and is branched over.
#[test]
fn performs_every_instruction(rt: HostRuntime) {
    let words = [
        Word::from([6, 0, 1]),
        PUSH,
        Word::from([4, 1, 2]),
        Word::from([11, 0, 0]),
        PUSH,
        Word::from([4, 0, 20]),
        Word::from([1, 0, 0]),
        Word::from([10, 0, 0]),
        Word::from([12, 0, 0]),
        PUSH,
        Word::from([4, 0, 0]),
        Word::from([3, 0, 0]),
        Word::from([9, 0, 2]),
        Word::from([255, 0, 0]),
        PUSH,
        Word::from([2, 0, 0]),
        Word::from([8, 0, 1]),
        Word::from([5, 0, 0]),
        PUSH,
        Word::from([7, 0, 1]),
    ];
    let mut stack = [9, 7, 5, 0, 0, 0];
    let answer = outcome::<Ranged>(&words, &mut stack, 2, 19);
    assert_eq!(rt; answer, Ok(Finished { word: 7, steps: 19 }));
    assert_eq!(rt; stack, [9, 7, 1, -14, 0, 0]);
}

// The stack has room for one word more; each refusal says at which word it came.
#[test]
fn refuses(rt: HostRuntime) {
    assert_eq!(rt;
        refused(&[PUSH, Word::from([4, 1, 0])], 9),
        halted(Refusal::BadWord(1), 1)
    );
    assert_eq!(rt;
        refused(&[Word::from([7, 0, 3])], 9),
        halted(Refusal::StackEmpty(0), 0)
    );
    assert_eq!(rt; refused(&[PUSH, PUSH], 9), halted(Refusal::StackFull(1), 1));
    assert_eq!(rt;
        refused(&[PUSH, Word::from([8, 1, 2])], 9),
        halted(Refusal::PlaceOutside(1), 1)
    );
    assert_eq!(rt;
        refused(&[Word::from([8, 0, 2])], 9),
        halted(Refusal::PlaceOutside(0), 0)
    );
    assert_eq!(rt;
        refused(&[Word::from([8, 0, 0])], 9),
        halted(Refusal::BudgetSpent(0), 9)
    );
    assert_eq!(rt;
        refused(&[Word::from([255, 0, 0])], 0),
        halted(Refusal::BudgetSpent(0), 0)
    );
}

// A base and a height beyond the stack, also where their sum is beyond every number.
#[test]
fn refuses_a_short_stack(rt: HostRuntime) {
    let short = halted(Refusal::StackTooShort, 0);
    let mut stack = [9, 7];
    assert_eq!(rt; outcome::<Round>(&[PUSH], &mut stack, 2, 9), short);
    assert_eq!(rt; outcome::<Round>(&[PUSH], &mut stack, usize::MAX, 9), short);
    assert_eq!(rt; stack, [9, 7]);
}

// 65,535 + 1 is 0 in round words; 46,340 squared fits ranged words, and 46,341 squared does not.
#[test]
fn edges(rt: HostRuntime) {
    let one_more = [Word::from([4, 0, 1]), Word::from([1, 0, 0])];
    let sum = outcome::<Round>(&one_more, &mut [9, 65535], 1, 9);
    assert_eq!(rt; sum, Ok(Finished { word: 0, steps: 2 }));
    let squared = [Word::from([6, 0, 0]), Word::from([11, 0, 0])];
    let fits = outcome::<Ranged>(&squared, &mut [9, 46340], 1, 9);
    let product = 2147395600;
    assert_eq!(rt;
        fits,
        Ok(Finished {
            word: product,
            steps: 2,
        })
    );
    let over = outcome::<Ranged>(&squared, &mut [9, 46341], 1, 9);
    let refusal = Refusal::Overflow(1);
    assert_eq!(rt; over, Err(Halt { refusal, steps: 1 }));
}
