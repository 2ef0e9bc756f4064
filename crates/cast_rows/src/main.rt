//! Makes types, asks for their layouts and converts between them as the rows of standard input say, one row a line, and writes
//! each row with what came out. `stdin` and `stdout` are written by `bench/cast_rows`, by its own reading of the rules.
//!
//! A type is written by its id, and a field by a number.
#![tactic(auto)]

mod converting;
mod laying;
mod making;
mod words;

use row_words::word_at;
use std::alloc::Global;
use terra_types::Types;
use tl_base::NoMemory;

fn main(rt: HostRuntime) -> anyhow::Result<()> {
    let alloc = rt.alloc();
    let mut types = Types::new(alloc)?;
    for line in rt.lines(alloc) {
        let line = line?;
        let row = line.as_str();
        let words: Vec<&str> = row.split_whitespace().collect(alloc)?;
        let answer = answer(alloc, &mut types, &words)?;
        println!(rt; "{row} = {answer}")?;
    }
    Ok(())
}

/// What comes of a row.
fn answer(alloc: Global, types: &mut Types, words: &[&str]) -> Result<String, NoMemory> {
    let word = word_at(words, 0);
    if let Some(answer) = making::row(alloc, types, word, words)? {
        return Ok(answer);
    }
    if let Some(answer) = laying::row(alloc, types, word, words)? {
        return Ok(answer);
    }
    if let Some(answer) = converting::row(alloc, types, word, words)? {
        return Ok(answer);
    }
    Ok(String::from_str(alloc, "no such row")?)
}
