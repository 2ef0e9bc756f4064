//! Says of the rows of standard input, one a line, whether `check_assignment` takes an assignment for a small piece of
//! three-address code, whether it takes that of `assign`, and whether this has a slot. `stdin` and `stdout` are written by
//! `bench/reg_rows`, by its own reading of the rules.
//!
//! A row is the homes, a letter or digit for each temporary, and then the code's words, of which those of an exit
//! end a block. In these a temporary is the character as many places behind `0` as its number.
#![tactic(auto)]

mod reading;

use reading::{code_of, homes_of};
use reg_alloc::{Home, assign, check_assignment};
use std::alloc::Global;
use tl_base::NoMemory;

fn main(rt: HostRuntime) -> anyhow::Result<()> {
    let alloc = rt.alloc();
    for line in rt.lines(alloc) {
        let line = line?;
        let row = line.as_str();
        let words: Vec<&str> = row.split_whitespace().collect(alloc)?;
        let (given, own, slots) = answers(alloc, &words)?;
        println!(rt; "{row} = {given} {own} {slots}")?;
    }
    Ok(())
}

/// Whether the row's homes are right for its code, whether those of `assign` are, and whether these have a slot.
fn answers(alloc: Global, words: &[&str]) -> Result<(bool, bool, bool), NoMemory> {
    let homes = homes_of(alloc, words)?;
    let code = code_of(alloc, words)?;
    let given = check_assignment(alloc, &code, &homes)?;
    let made = assign(alloc, &code)?;
    let own = check_assignment(alloc, &code, &made)?;
    Ok((
        given,
        own,
        made.as_slice().iter().any(|home| is_slot(*home)),
    ))
}

fn is_slot(home: Option<Home>) -> bool {
    match home {
        Some(Home::Slot(_)) => true,
        _ => false,
    }
}
