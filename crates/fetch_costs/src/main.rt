//! Fills a code memory with 315 words and reads them forward, `fetch_costs [flat|records] [ROUNDS]`, so that the cost of
//! reading can be counted for each memory; without arguments once for both.

#![tactic(auto)]

use bytecode::Word;
use memory::{CodeMemory, Flat};
use records::RecordMemory;
use std::env;

// Appends 315 words that differ, one for each number.
fn fill<M: CodeMemory>(memory: &mut M) {
    memory.clear();
    for i in 0..315u16 {
        let [high, low] = i.to_be_bytes();
        let _ = memory.append(Word::from([high, low, 7]));
    }
}

// Fills the memory, reads all words forward that many times, and adds their bytes up. By loops over places, as the
// machine reads, and without an iterator's own cost.
fn sum<M: CodeMemory>(memory: &mut M, rounds: u32) -> u64 {
    fill(memory);
    let mut all: u64 = 0;
    for _ in 0..rounds {
        for place in 0..315 {
            if let Some(word) = memory.fetch(place) {
                all = all.wrapping_add(u64::from(word.opcode) + u64::from(word.sign));
            }
        }
    }
    all
}

// The sum of a flat memory. As the next, a function of its own that is not put into its caller: what reading costs then
// hangs on no code around it.
#[inline(never)]
fn flat(rounds: u32) -> u64 {
    let mut bytes = [0; 945];
    sum(&mut Flat::new(&mut bytes), rounds)
}

// The sum of a record memory.
#[inline(never)]
fn chained(rounds: u32) -> u64 {
    sum(&mut RecordMemory::new(), rounds)
}

// The sums of one memory, or of both.
fn show(rt: &HostRuntime, name: &str, rounds: u32) -> anyhow::Result<()> {
    if name != "records" {
        println!(rt; "flat {}", flat(rounds))?;
    }
    if name != "flat" {
        println!(rt; "records {}", chained(rounds))?;
    }
    Ok(())
}

fn main(rt: HostRuntime) -> anyhow::Result<()> {
    let mut args = env::args(&rt)?.skip(1);
    let name = args.next();
    let rounds = args
        .next()
        .map_or(Ok(1), |text| text.as_str().parse::<u32>())?;
    show(
        &rt,
        name.as_ref().map_or("both", |name| name.as_str()),
        rounds,
    )
}
