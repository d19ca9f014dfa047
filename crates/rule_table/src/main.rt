//! A test: plans each line of standard input as a rule of its own, and prints what comes of it, so that a table of rules
//! is compared with what is written out by hand.

#![tactic(auto)]

use language::Entry;
use planning::plan;
use std::io;
use std::io::{BufRead, BufReader};

// Plans one rule, and prints its type, length and height, or the refusal.
fn answer(rt: &HostRuntime, text: &[u8], output: &mut [u8]) -> io::Result<()> {
    // As much room as a rule can need.
    let mut table = [Entry::BLANK; 512];
    let mut code = [0; 4608];
    match plan(text, &mut table, &mut code, output) {
        Ok(rule) => {
            let card = rule.card;
            println!(rt; "{} {} {}", card.gives, card.length, card.height)
        }
        Err(why) => println!(rt; "{why}"),
    }
}

fn main(rt: HostRuntime) -> anyhow::Result<()> {
    let heap = rt.alloc();
    let mut output = vec![in heap; 0; 32768]?;
    for line in BufReader::new(heap, rt.stdin())?.lines(heap) {
        answer(&rt, line?.as_bytes(), output.as_mut_slice())?;
    }
    Ok(())
}
