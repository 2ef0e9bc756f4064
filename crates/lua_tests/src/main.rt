//! Does what the rows of standard input say with Lua's values, tables, heap, operators and basic functions, one row a line, and writes each
//! row with what came out. `stdin` and `stdout` are written by `bench/lua_rows`, by its own reading of the rules.
//!
//! A value is a word: `nil`, `true`, `12`, `'text`, `table:0`, `lib:print`. In a text `~` stands for a space and `^I` for a tab.
#![tactic(auto)]

mod heaps;
mod library;
mod operators;
mod show;
mod tables;
mod values;
mod words;

use lua_table::Heap;
use row_words::word_at;
use tl_base::NoMemory;

fn main(rt: HostRuntime) -> anyhow::Result<()> {
    let mut heap = Heap::new(rt.alloc());
    for line in rt.lines(rt.alloc()) {
        let line = line?;
        let row = line.as_str();
        if row.is_empty() || row.starts_with("--") {
            continue;
        }
        let words: Vec<&str> = row.split_whitespace().collect(rt.alloc())?;
        let answer = answer(&mut heap, &words)?;
        println!(rt; "{row} = {answer}")?;
    }
    Ok(())
}

/// What comes of a row, all of whose state is in the heap.
fn answer(heap: &mut Heap, words: &[&str]) -> Result<String, NoMemory> {
    let alloc = heap.allocator();
    let word = word_at(words, 0);
    if let Some(answer) = values::answer(heap, word, words)? {
        return Ok(answer);
    }
    if let Some(answer) = tables::answer(heap, word, words)? {
        return Ok(answer);
    }
    if let Some(answer) = heaps::answer(heap, word, words)? {
        return Ok(answer);
    }
    if let Some(answer) = library::answer(heap, word, words)? {
        return Ok(answer);
    }
    if let Some(answer) = operators::answer(heap, word, words)? {
        return Ok(answer);
    }
    Ok(String::from_str(alloc, "no such row")?)
}
