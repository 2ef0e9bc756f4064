//! Generates sources of the numbers of functions that the rows of standard input name, one row a line. `text N` writes the text, and
//! `digest N` its size in bytes and its SHA-256. `stdin` and `stdout` are written by `bench/gen_rows`, by its own reading of
//! docs/LANGUAGE.md.
#![tactic(auto)]

use gen_source::generate;
use sha2::{Digest, Sha256};
use std::alloc::Global;
use tl_base::NoMemory;

fn main(rt: HostRuntime) -> anyhow::Result<()> {
    let alloc = rt.alloc();
    for line in rt.lines(alloc) {
        let line = line?;
        let row = line.as_str();
        let answer = answer(alloc, row)?;
        println!(rt; "{row}: {answer}")?;
    }
    Ok(())
}

/// What comes of a row.
fn answer(alloc: Global, row: &str) -> Result<String, NoMemory> {
    let Some((word, number)) = row.split_once(' ') else {
        return Ok(String::from_str(alloc, "no such row")?);
    };
    let Ok(count) = number.parse::<u64>() else {
        return Ok(String::from_str(alloc, "no such row")?);
    };
    let text = generate(alloc, count)?;
    if word == "text" {
        return Ok(text);
    }
    digest(alloc, text.as_str())
}

/// The size and the digest of a text.
fn digest(alloc: Global, text: &str) -> Result<String, NoMemory> {
    let mut hasher = Sha256::new();
    hasher.update(text.as_bytes());
    let bytes = hasher.finalize();
    let mut out = format!(in alloc; "{} ", text.len())?;
    for byte in bytes.iter() {
        let byte = *byte;
        write!(out, "{byte:02x}")?;
    }
    Ok(out)
}
