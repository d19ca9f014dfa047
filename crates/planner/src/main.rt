//! `planner [FILE]`: reads one rule, from the file or from standard input, and prints its listing and its card; or says
//! on standard error why the rule is refused, and where, and ends with status 1.

#![tactic(auto)]

mod pointing;
mod sentence;

use compiler::Card;
use language::Entry;
use planning::{place, plan};
use pointing::{point, trimmed};
use refusal::Refusal;
use sentence::sentence;
use std::io::{Read, Write};
use std::process::ExitCode;
use std::{env, fs};

const USAGE: &str =
    "usage: planner [FILE]\nReads one rule, from FILE or from standard input, and prints its code.";

// The whole input: the file of that name, or standard input.
fn input(rt: &HostRuntime, file: Option<String>) -> anyhow::Result<Vec<u8>> {
    match file {
        Some(name) => Ok(fs::read(rt, name.as_str())?),
        None => {
            let mut text = Vec::new(rt.alloc());
            rt.stdin().read_to_end(&mut text)?;
            Ok(text)
        }
    }
}

// The listing, and the line that tells type, length and height.
fn accepted(rt: &HostRuntime, card: Card, listing: &[u8]) -> anyhow::Result<()> {
    rt.stdout().write_all(listing)?;
    println!(rt;
        "{}, {} words, height {}",
        card.gives, card.length, card.height
    )?;
    Ok(())
}

// The refusal, the line of the rule with a caret under the place, and a sentence.
fn refused(rt: &HostRuntime, why: Refusal, text: &[u8]) -> anyhow::Result<()> {
    eprintln!(rt; "{why}")?;
    let text = trimmed(text);
    let at = place(why);
    if let Some(at) = at {
        let shown = point(rt.alloc(), text, at)?;
        rt.stderr().write_all(shown.as_slice())?;
    }
    let ended = at.is_some_and(|at| at >= text.len());
    eprintln!(rt; "{}", sentence(why, ended))?;
    Ok(())
}

fn main(rt: HostRuntime) -> anyhow::Result<ExitCode> {
    let mut args = env::args(&rt)?;
    let _ = args.next();
    let file = args.next();
    if args.next().is_some() {
        rt.eprintln(USAGE)?;
        return Ok(ExitCode::FAILURE);
    }
    let text = input(&rt, file)?;
    // As much room as a rule can need, so that only the rule can be at fault.
    let mut table = [Entry::BLANK; 512];
    let mut code = [0; 4608];
    let mut output = vec![in rt.alloc(); 0; 32768]?;
    match plan(
        text.as_slice(),
        &mut table,
        &mut code,
        output.as_mut_slice(),
    ) {
        Ok(rule) => {
            accepted(&rt, rule.card, &output.as_slice()[..rule.listing])?;
            Ok(ExitCode::SUCCESS)
        }
        Err(why) => {
            refused(&rt, why, text.as_slice())?;
            Ok(ExitCode::FAILURE)
        }
    }
}
