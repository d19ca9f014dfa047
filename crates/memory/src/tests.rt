use crate::{CodeMemory, Flat};
use bytecode::Word;
use refusal::Refusal;

// Eight bytes have room for two words; the third is refused, and nothing then changes.
#[test]
fn appends_until_full(rt: HostRuntime) {
    let mut bytes = [9; 8];
    let mut memory = Flat::new(&mut bytes);
    assert_eq!(rt; memory.capacity(), 2);
    assert_eq!(rt; memory.count(), 0);
    assert_eq!(rt; memory.append(Word::from([4, 1, 7])), Ok(()));
    assert_eq!(rt; memory.append(Word::from([8, 0, 255])), Ok(()));
    assert_eq!(rt;
        memory.append(Word::from([1, 2, 3])),
        Err(Refusal::MemoryFull(2))
    );
    assert_eq!(rt; memory.count(), 2);
    assert_eq!(rt; memory.at(0), Some(Word::from([4, 1, 7])));
    assert_eq!(rt; memory.at(1), Some(Word::from([8, 0, 255])));
    assert_eq!(rt; memory.at(2), None);
    assert_eq!(rt; bytes, [4, 1, 7, 8, 0, 255, 9, 9]);
}

// Clearing forgets the words and alters no byte; the next word goes to place 0.
#[test]
fn clears(rt: HostRuntime) {
    let mut bytes = [9; 7];
    let mut memory = Flat::new(&mut bytes);
    assert_eq!(rt; memory.append(Word::from([4, 1, 7])), Ok(()));
    assert_eq!(rt; memory.append(Word::from([0, 0, 0])), Ok(()));
    memory.clear();
    assert_eq!(rt; memory.count(), 0);
    assert_eq!(rt; memory.at(0), None);
    assert_eq!(rt; memory.append(Word::from([12, 0, 0])), Ok(()));
    assert_eq!(rt; bytes, [12, 0, 0, 0, 0, 0, 9]);
}

// Two bytes hold no word, and no memory holds more than 4,096.
#[test]
fn capacities(rt: HostRuntime) {
    let mut none = [1; 2];
    let mut memory = Flat::new(&mut none);
    assert_eq!(rt;
        memory.append(Word::from([0, 0, 0])),
        Err(Refusal::MemoryFull(0))
    );
    let mut many = [0; 12292];
    assert_eq!(rt; Flat::new(&mut many).capacity(), 4096);
}
