//! Reads the texts of the rows of standard input into tokens, symbols and values, one row a line, and writes each row
//! with what came out. What is expected in `stdout` is by hand from docs/LANGUAGE.md.
//!
//! In a text a percent sign and two hexadecimal digits stand for a byte.
#![tactic(auto)]

mod texts;
mod tokens;

use std::alloc::Global;
use texts::{repeated_text, text_of};
use tl_base::NoMemory;
use tl_lex::{LONGEST_TEXT, literal_value};
use tl_tree::numeral_value;
use tokens::{Part, listing, symbols};

fn main(rt: HostRuntime) -> anyhow::Result<()> {
    let alloc = rt.alloc();
    for line in rt.lines(alloc) {
        let line = line?;
        let row = line.as_str();
        if row.is_empty() || row.starts_with("--") {
            continue;
        }
        let answer = answer(alloc, row)?;
        println!(rt; "{row} = {answer}")?;
    }
    Ok(())
}

/// What comes of a row: `tokens TEXT`, `repeated COUNT PART OPEN CLOSE`, `value LITERAL`, `symbols TEXT` or
/// `numeral TEXT`.
fn answer(alloc: Global, row: &str) -> Result<String, NoMemory> {
    let (word, rest) = match row.split_once(' ') {
        Some(parts) => parts,
        None => (row, ""),
    };
    let made = match word {
        "repeated" => repeated_text(alloc, rest)?,
        _ => text_of(alloc, rest)?,
    };
    let text = made.as_str();
    if text.len() > LONGEST_TEXT {
        return Ok(String::from_str(alloc, "too long")?);
    }
    match word {
        "tokens" => listing(alloc, text, Part::Text),
        "repeated" => listing(alloc, text, Part::Size),
        "value" => texts::shown(alloc, &literal_value(alloc, text)?),
        "symbols" => symbols(alloc, text),
        "numeral" => match numeral_value(text) {
            Some(value) => Ok(format!(in alloc; "{value}")?),
            None => Ok(String::from_str(alloc, "none")?),
        },
        _ => Ok(String::from_str(alloc, "no such row")?),
    }
}
