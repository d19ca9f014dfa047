//! The steps of a memory, on its bytes alone. Between two steps the bytes are no memory, so these are not methods of one.
//! A link is a number in byte 0 of a record, so it is read and written by its index.

ghost use Rattle.std.specs.Prelude.{◌≡◌, ◌<◌, length};
ghost use Rattle.memory.specs.Bytes.{put};
ghost use Rattle.records.specs.Layout.{count, spot, blank};
ghost use Rattle.records.specs.Writes.{recounted, opened, last_after};
ghost use Rattle.records.specs.Steps.{Blank, Stands, Appends, Clears};

use bytecode::Word;

// Record 1 is the first free one, and each has the next number behind it.
pub(crate) fn blank_bytes() -> [u8; 1024]
    ensures { Blank result }
{
    let mut bytes = [0; 1024];
    bytes[1] = 1;
    for r in 1..63u8 {
        bytes[16 * usize::from(r)] = r + 1;
    }
    bytes
}

// The number of words.
pub(crate) fn count_in(bytes: &[u8; 1024]) -> u16
    ensures { result ≡ count bytes.now }
{
    u16::from_be_bytes([bytes[2], bytes[3]])
}

fn recount(bytes: &mut [u8; 1024], to: u16)
    ensures { bytes.new ≡ recounted bytes.old to }
{
    let [high, low] = to.to_be_bytes();
    bytes[2] = high;
    bytes[3] = low;
}

// Writes the k-th word of record r.
#[tactic(auto, using(crate::proofs::Operations::copies))]
fn put_word(bytes: &mut [u8; 1024], r: usize, k: usize, word: Word)
    requires within { r < 64 }
    requires kth { k < 5 }
    ensures { bytes.new ≡ put bytes.old (spot r k) word }
{
    let at = 16 * r + (3 * k + 1);
    bytes[at..at + 3].copy_from_slice(&<[u8; 3]>::from(word));
}

// The record where the next word goes: the rule's last one, or where that is full the first free one, put behind it.
fn open_record(bytes: &mut [u8; 1024], last: usize) -> usize
    requires { Stands bytes.old last }
    ensures bytes { bytes.new ≡ opened bytes.old last }
    ensures last { result ≡ last_after bytes.old last }
    ensures within { result < 64 }
{
    if count_in(bytes) % 5 != 0 {
        return last;
    }
    let number = bytes[1];
    let fresh = usize::from(number);
    bytes[1] = bytes[16 * fresh];
    bytes[16 * last] = number;
    bytes[16 * fresh] = 0;
    fresh
}

// Adds a word to the rule that ends with record `last`, and returns the record that it then ends with.
pub(crate) fn add_word(bytes: &mut [u8; 1024], last: usize, word: Word) -> usize
    requires stands { Stands bytes.old last }
    requires room { count bytes.old < 315 }
    ensures { Appends bytes.old word bytes.new result }
{
    let count = count_in(bytes);
    let r = open_record(bytes, last);
    put_word(bytes, r, usize::from(count % 5), word);
    recount(bytes, count + 1);
    r
}

// Leaves no word: the rule's chain, which ends with record `last`, is put before the free chain.
pub(crate) fn clear_words(bytes: &mut [u8; 1024], last: usize)
    requires { Stands bytes.old last }
    ensures { Clears bytes.old bytes.new }
{
    if count_in(bytes) == 0 {
        return;
    }
    let first = bytes[0];
    bytes[16 * last] = bytes[1];
    bytes[1] = first;
    bytes[0] = 0;
    recount(bytes, 0);
}
