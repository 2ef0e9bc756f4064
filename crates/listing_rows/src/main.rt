//! Lists and reads what the rows of standard input say, one row a line, and writes each row with what came out. What
//! is expected in `stdout` is by hand from the manual's encodings.
//!
//! - `word W`: the text of a word, given by eight hexadecimal digits. The text is read again, and where that doesn't
//!   give the word, this is the answer instead;
//! - `line TEXT`: the word of a text, or why it has none;
//! - `source TEXT`: the words of a source, or why it has none and at which line;
//! - `image NAME ADDRESS WORDS`: the listing of an image of words, with commas between them, and an export; or that
//!   it is none;
//! - `trace NUMBER ADDRESS WORD` or `trace NUMBER ADDRESS WORD REGISTER VALUE`: the line of a step, which wrote no
//!   register, or this one.
//!
//! In a text a percent sign and two hexadecimal digits stand for a byte.
#![tactic(auto)]

use elf_image::{Entries, Image, Symbol, Symbols, Words, is_lawful};
use row_words::{escaped, hexadecimal, number_at, unescaped, word_at, words_of};
use rv_listing::{AsmError, AsmFault, AsmKind, TraceLine, assemble, listing, read_line, word_text};
use std::alloc::Global;
use tl_base::{Bytes, NoMemory};

fn main(rt: HostRuntime) -> anyhow::Result<()> {
    let alloc = rt.alloc();
    for line in rt.lines(alloc) {
        let line = line?;
        let row = line.as_str();
        if row.is_empty() || row.starts_with("--") {
            continue;
        }
        let answer = answer(alloc, row)?;
        println!(rt; "{row} = {answer}")?;
    }
    Ok(())
}

fn answer(alloc: Global, row: &str) -> Result<String, NoMemory> {
    match row.split_once(' ') {
        Some(("word", word)) => word_answer(alloc, (hexadecimal(word) & 0xffff_ffff) as u32),
        Some(("line", text)) => line_answer(alloc, unescaped(alloc, text)?.as_slice()),
        Some(("source", text)) => source_answer(alloc, unescaped(alloc, text)?.as_slice()),
        Some(("image", rest)) => image_answer(alloc, &parts_of(alloc, rest)?),
        Some(("trace", rest)) => trace_answer(alloc, &parts_of(alloc, rest)?),
        _ => Ok(String::from_str(alloc, "no such row")?),
    }
}

fn word_answer(alloc: Global, word: u32) -> Result<String, NoMemory> {
    let text = word_text(alloc, word)?;
    match read_line(text.as_slice()) {
        Ok(again) if again == word => escaped(alloc, text.as_slice(), b' '),
        _ => line_answer(alloc, text.as_slice()),
    }
}

fn line_answer(alloc: Global, line: &[u8]) -> Result<String, NoMemory> {
    match read_line(line) {
        Ok(word) => Ok(format!(in alloc; "{word:08x}")?),
        Err(AsmError::BadName) => Ok(String::from_str(alloc, "BadName")?),
        Err(AsmError::BadOperands) => Ok(String::from_str(alloc, "BadOperands")?),
    }
}

fn source_answer(alloc: Global, source: &[u8]) -> Result<String, NoMemory> {
    match assemble(alloc, source) {
        Ok(words) => {
            let mut answer = String::new(alloc);
            for word in words.as_slice() {
                let text = format!(in alloc; "{word:08x} ")?;
                answer.push_str(&text)?;
            }
            Ok(answer)
        }
        Err(AsmFault::Refused { kind, line }) => {
            let name = kind_name(kind);
            Ok(format!(in alloc; "{name} at {line}")?)
        }
        Err(AsmFault::NoMemory) => Err(NoMemory),
    }
}

fn kind_name(kind: AsmKind) -> &'static str {
    match kind {
        AsmKind::Empty => "Empty",
        AsmKind::BadName => "BadName",
        AsmKind::BadOperands => "BadOperands",
    }
}

// The parts of a row, with a space between.
fn parts_of<'a>(alloc: Global, row: &'a str) -> Result<Vec<&'a str>, NoMemory> {
    let mut parts = Vec::new(alloc);
    for part in row.split(' ') {
        parts.push(part)?;
    }
    Ok(parts)
}

fn image_answer(alloc: Global, parts: &[&str]) -> Result<String, NoMemory> {
    let mut exports = Vec::new(alloc);
    exports.push(Symbol {
        name: Bytes::from_vec(unescaped(alloc, word_at(parts, 0))?),
        address: hexadecimal(word_at(parts, 1)),
        params: Bytes::new(alloc),
        result: 3,
    })?;
    let image = Image {
        text: Words::from_vec(words_of(alloc, word_at(parts, 2))?),
        statics: Bytes::new(alloc),
        entries: Entries::new(alloc),
        memory: 65_536,
        heap: 0x4000_0000,
        private: 8_192,
        exports: Symbols::from_vec(exports),
    };
    if image.text.as_slice().len() > 1_000 || !is_lawful(&image) {
        return Ok(String::from_str(alloc, "no image")?);
    }
    let lines = listing(alloc, &image)?;
    escaped(alloc, lines.as_slice(), b' ')
}

fn trace_answer(alloc: Global, parts: &[&str]) -> Result<String, NoMemory> {
    let address = hexadecimal(word_at(parts, 1));
    let word = (hexadecimal(word_at(parts, 2)) & 0xffff_ffff) as u32;
    let change = match word_at(parts, 3).parse::<u32>() {
        Ok(register) => Some((register, number_at(parts, 4))),
        Err(_) => None,
    };
    let mut line = TraceLine::new();
    line.write(number_at(parts, 0), address, word, change);
    escaped(alloc, line.bytes(), b' ')
}
