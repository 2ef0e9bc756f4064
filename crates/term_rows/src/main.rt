//! Does what the rows of standard input say with a store of Terra terms, one row a line, and writes each row with what came out.
//! `stdin` and `stdout` are written by `bench/term_rows`, by its own reading of the rules.
//!
//! A row that adds a node takes its parts from a stack, and puts the node there.
#![tactic(auto)]

mod building;
mod doing;
mod keeping;

use building::Work;
use row_words::word_at;
use terra_term::Store;
use terra_types::Types;
use tl_base::NoMemory;

fn main(rt: HostRuntime) -> anyhow::Result<()> {
    let alloc = rt.alloc();
    let mut work = Work {
        store: Store::new(alloc, Types::new(alloc)?),
        stack: Vec::new(alloc),
        typed: Vec::new(alloc),
    };
    for line in rt.lines(alloc) {
        let line = line?;
        let row = line.as_str();
        let words: Vec<&str> = row.split_whitespace().collect(alloc)?;
        let answer = answer(&mut work, &words)?;
        println!(rt; "{row} = {answer}")?;
    }
    Ok(())
}

/// What comes of a row.
fn answer(work: &mut Work, words: &[&str]) -> Result<String, NoMemory> {
    let alloc = work.store.allocator();
    let word = word_at(words, 0);
    if let Some(answer) = building::leaf(work, word, words)? {
        return Ok(answer);
    }
    if let Some(answer) = building::node(work, word, words)? {
        return Ok(answer);
    }
    if let Some(answer) = doing::statement(work, word, words)? {
        return Ok(answer);
    }
    if let Some(answer) = keeping::row(work, word, words)? {
        return Ok(answer);
    }
    Ok(String::from_str(alloc, "no such row")?)
}
