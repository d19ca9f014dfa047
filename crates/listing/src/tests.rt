use crate::list;
use bytecode::Word;
use memory::{CodeMemory, Flat};
use refusal::Refusal;

fn word(opcode: u8, sign: u8, value: u8) -> Word {
    Word::from([opcode, sign, value])
}

// In the tests of two crates, since neither is a library of the other's tests.
fn fill<M: CodeMemory>(memory: &mut M, words: &[Word]) {
    for word in words {
        let _ = memory.append(*word);
    }
}

// The bytes behind the listing are as they were.
#[test]
fn lists_a_rule(rt: HostRuntime) {
    let rule = [
        word(6, 0, 0),
        word(0, 0, 0),
        word(4, 0, 30),
        word(12, 0, 0),
        word(9, 0, 3),
        word(4, 0, 5),
        word(8, 0, 2),
        word(4, 0, 2),
    ];
    let mut bytes = [0; 24];
    let mut memory = Flat::new(&mut bytes);
    fill(&mut memory, &rule);
    let mut out = [b'.'; 83];
    assert_eq!(rt; list(&memory, &mut out), Ok(80));
    assert_eq!(rt;
        out,
        *b"0 Acc 0\n1 Push\n2 Consti 30\n3 Leqi\n4 Branchif 3\n5 Consti 5\n6 Branch 2\n7 Consti 2\n..."
    );
}

// A negative argument; and one byte too few, where nothing is written.
#[test]
fn lists_a_negative_argument(rt: HostRuntime) {
    let mut bytes = [0; 3];
    let mut memory = Flat::new(&mut bytes);
    fill(&mut memory, &[word(4, 1, 255)]);
    let mut short = [b'.'; 13];
    assert_eq!(rt; list(&memory, &mut short), Err(Refusal::OutputTooShort(14)));
    assert_eq!(rt; short, [b'.'; 13]);
    let mut out = [b'.'; 14];
    assert_eq!(rt; list(&memory, &mut out), Ok(14));
    assert_eq!(rt; out, *b"0 Consti -255\n");
}

// A word that is no instruction goes first, before an output that is too short.
#[test]
fn refuses_a_bad_word(rt: HostRuntime) {
    let mut bytes = [0; 9];
    let mut memory = Flat::new(&mut bytes);
    fill(&mut memory, &[word(0, 0, 0), word(4, 1, 0), word(13, 0, 0)]);
    let mut out = [b'.'; 3];
    assert_eq!(rt; list(&memory, &mut out), Err(Refusal::BadWord(1)));
    assert_eq!(rt; out, *b"...");
}
