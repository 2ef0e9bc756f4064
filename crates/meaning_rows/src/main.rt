//! Makes typed terms as the rows of standard input say, one row a line, runs functions of them, and writes each row
//! that runs one with what came out. A function runs twice, by the plain evaluator and by the steps of its three-address
//! code; where the code gives something else, or a function has no code, the row says so. `stdin` and `stdout` are
//! written by `bench/meaning_rows`, by its own reading of the rules.
//!
//! The code's temporaries hold a word of no meaning before they are written. A row `lower` makes a function's code, for
//! `bench/lowering`, and a row `weigh` writes how many words machine code may take, for `bench/kernels`.
//!
//! A row that adds a node takes its parts from a stack, and puts the node there. A node's place is its number.
#![tactic(auto)]

mod acts;
mod adding;
mod building;
mod doing;
mod machine;
mod operations;
mod running;
mod weights;

use building::Work;
use row_words::word_at;
use std::alloc::Global;
use std::io::Write;
use terra_term::Store;
use terra_types::Types;
use tl_base::NoMemory;

fn main(rt: HostRuntime) -> anyhow::Result<()> {
    let alloc = rt.alloc();
    let mut rows: Vec<String> = Vec::new(alloc);
    for line in rt.lines(alloc) {
        rows.push(line?)?;
    }
    let text = answers(alloc, &rows)?;
    rt.stdout().write_all(text.as_str().as_bytes())?;
    Ok(())
}

/// The rows that show something, each with what came of it.
fn answers(alloc: Global, rows: &[String]) -> Result<String, NoMemory> {
    let mut work = Work {
        store: Store::new(alloc, Types::new(alloc)?),
        stack: Vec::new(alloc),
        entries: Vec::new(alloc),
        nodes: 0,
        codes: Vec::new(alloc),
    };
    let mut text = String::new(alloc);
    each_row(&mut work, rows, &mut text)?;
    Ok(text)
}

fn each_row(work: &mut Work, rows: &[String], text: &mut String) -> Result<(), NoMemory> {
    for row in rows {
        add_row(work, row.as_str(), text)?;
    }
    Ok(())
}

/// Does what a row says, and puts it behind the text where it shows something.
fn add_row(work: &mut Work, row: &str, text: &mut String) -> Result<(), NoMemory> {
    let alloc = work.store.allocator();
    let words: Vec<&str> = row.split_whitespace().collect(alloc)?;
    if let Some(answer) = answer(work, &words)? {
        let line = format!(in alloc; "{row} = {answer}\n")?;
        text.push_str(line.as_str())?;
    }
    Ok(())
}

/// What comes of a row, if it shows something.
fn answer(work: &mut Work, words: &[&str]) -> Result<Option<String>, NoMemory> {
    let word = word_at(words, 0);
    if building::expression(work, word, words)? {
        return Ok(None);
    }
    if operations::operation(work, word, words)? {
        return Ok(None);
    }
    if doing::statement(work, word, words)? {
        return Ok(None);
    }
    adding::row(work, word, words)
}
