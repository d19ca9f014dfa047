use crate::{Operation, operate, recall};
use bytecode::Word;
use memory::{CodeMemory, Flat};
use records::RecordMemory;
use refusal::Refusal;

fn word(opcode: u8) -> Word {
    Word::from([opcode, 1, 9])
}

fn numbered(i: u16) -> Word {
    let [sign, opcode] = i.to_be_bytes();
    Word::from([opcode, sign, 7])
}

// The records 1 to 63 are free, each with the next number behind it.
#[test]
fn new_memory(rt: HostRuntime) {
    let memory = RecordMemory::new();
    let bytes = memory.bytes();
    assert!(rt; bytes[0..16] == [0, 1, 0, 0, 0, 0, 0, 0, 0, 0, 0, 0, 0, 0, 0, 0]);
    assert!(rt; bytes[16..32] == [2, 0, 0, 0, 0, 0, 0, 0, 0, 0, 0, 0, 0, 0, 0, 0]);
    assert!(rt; bytes[992..1008] == [63, 0, 0, 0, 0, 0, 0, 0, 0, 0, 0, 0, 0, 0, 0, 0]);
    assert!(rt; bytes[1008..1024] == [0; 16]);
}

// Six words take two records, a clear gives them back, and five words take one of them again.
#[test]
fn appended_cleared_appended(rt: HostRuntime) {
    let mut memory = RecordMemory::new();
    for opcode in 0..6 {
        assert_eq!(rt; memory.append(word(opcode)), Ok(()));
    }
    assert!(rt; memory.bytes()[0..16] == [1, 3, 0, 6, 0, 0, 0, 0, 0, 0, 0, 0, 0, 0, 0, 0]);
    assert!(rt; memory.bytes()[16..32] == [2, 0, 1, 9, 1, 1, 9, 2, 1, 9, 3, 1, 9, 4, 1, 9]);
    assert!(rt; memory.bytes()[32..48] == [0, 5, 1, 9, 0, 0, 0, 0, 0, 0, 0, 0, 0, 0, 0, 0]);
    assert!(rt; memory.bytes()[48..64] == [4, 0, 0, 0, 0, 0, 0, 0, 0, 0, 0, 0, 0, 0, 0, 0]);
    memory.clear();
    assert!(rt; memory.bytes()[0..16] == [0, 1, 0, 0, 0, 0, 0, 0, 0, 0, 0, 0, 0, 0, 0, 0]);
    assert!(rt; memory.bytes()[16..32] == [2, 0, 1, 9, 1, 1, 9, 2, 1, 9, 3, 1, 9, 4, 1, 9]);
    assert!(rt; memory.bytes()[32..48] == [3, 5, 1, 9, 0, 0, 0, 0, 0, 0, 0, 0, 0, 0, 0, 0]);
    for opcode in 20..25 {
        assert_eq!(rt; memory.append(word(opcode)), Ok(()));
    }
    assert!(rt; memory.bytes()[0..16] == [1, 2, 0, 5, 0, 0, 0, 0, 0, 0, 0, 0, 0, 0, 0, 0]);
    assert!(rt; memory.bytes()[16..32] == [0, 20, 1, 9, 21, 1, 9, 22, 1, 9, 23, 1, 9, 24, 1, 9]);
    assert!(rt; memory.bytes()[32..48] == [3, 5, 1, 9, 0, 0, 0, 0, 0, 0, 0, 0, 0, 0, 0, 0]);
}

// 315 words fit and are read back in order, one place after another; the next is refused, and no byte is altered.
#[test]
fn full(rt: HostRuntime) {
    let mut memory = RecordMemory::new();
    for i in 0..315 {
        assert_eq!(rt; memory.append(numbered(i)), Ok(()));
    }
    assert!(rt; memory.bytes()[0..4] == [1, 0, 1, 59]);
    let before = *memory.bytes();
    assert_eq!(rt; memory.append(word(0)), Err(Refusal::MemoryFull(315)));
    assert!(rt; memory.bytes() == &before);
    for place in 0..316 {
        assert_eq!(rt; memory.fetch(place), memory.at(place));
    }
    assert_eq!(rt; memory.fetch(314), Some(numbered(314)));
    assert_eq!(rt; memory.fetch(0), Some(numbered(0)));
}

// Both memories answer by the operations alone.
#[test]
fn both_memories(rt: HostRuntime) {
    let operations = [
        Operation::Append(word(1)),
        Operation::Clear,
        Operation::Append(word(2)),
        Operation::Append(word(3)),
        Operation::Append(word(4)),
    ];
    let mut bytes = [0; 6];
    let mut flat = Flat::new(&mut bytes);
    assert_eq!(rt; recall(&mut flat, &operations, 1), Some(word(3)));
    assert_eq!(rt; recall(&mut flat, &operations, 2), None);
    let mut answers = [true; 5];
    operate(&mut flat, &operations, &mut answers);
    assert_eq!(rt; answers, [true, true, true, true, false]);
    assert_eq!(rt;
        recall(&mut RecordMemory::new(), &operations, 2),
        Some(word(4))
    );
}
