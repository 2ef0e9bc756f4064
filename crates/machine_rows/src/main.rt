//! Does what the rows of standard input say with instructions and with the machine, one row a line, and writes each row
//! with what came out. The rows' comments say where their outcomes in `stdout` are from.
//!
//! Numbers are hexadecimal. A text is its words with commas between them.
#![tactic(auto)]

mod instructions;
mod runs;
mod words;

use row_words::word_at;
use runs::Bench;
use tl_base::NoMemory;

fn main(rt: HostRuntime) -> anyhow::Result<()> {
    let mut bench = Bench::new(rt.alloc())?;
    for line in rt.lines(rt.alloc()) {
        let line = line?;
        let row = line.as_str();
        if row.is_empty() || row.starts_with("--") {
            continue;
        }
        let words: Vec<&str> = row.split_whitespace().collect(rt.alloc())?;
        let answer = answer(&mut bench, &words)?;
        println!(rt; "{row} = {answer}")?;
    }
    Ok(())
}

/// What comes of a row, all of whose state is in the bench.
fn answer(bench: &mut Bench, words: &[&str]) -> Result<String, NoMemory> {
    let alloc = bench.alloc;
    match word_at(words, 0) {
        "word" => instructions::answer(alloc, words),
        "entries" => bench.enter(words),
        "run" => bench.run(words),
        "load" => bench.load(words),
        "start" => bench.start(words),
        "steps" => bench.steps(words),
        "count" => bench.count(),
        "pc" => bench.pc(),
        "register" => bench.register(words),
        "sink" => bench.sink(words),
        "taken" => bench.taken(),
        _ => Ok(String::from_str(alloc, "no such row")?),
    }
}
