// Rows that make a call.

use crate::texts::{count_at, numbers_of, shown};
use row_words::word_at;
use std::alloc::Global;
use terrac_call::terrac;
use tl_base::{MemSink, MemSource, NoMemory};

/// How many bytes a read gives at most, the room of `out`, and the calls of the source and of the sinks that fail.
#[derive(Drop)]
pub struct Faults {
    step: usize,
    room: usize,
    reads: Vec<u64>,
    outs: Vec<u64>,
    notes: Vec<u64>,
}

impl Faults {
    /// None.
    pub fn none(alloc: Global) -> Faults {
        Faults {
            step: 65_536,
            room: 100,
            reads: Vec::new(alloc),
            outs: Vec::new(alloc),
            notes: Vec::new(alloc),
        }
    }

    /// `faults STEP ROOM READS OUTS NOTES`
    pub fn of(alloc: Global, words: &[&str]) -> Result<Faults, NoMemory> {
        Ok(Faults {
            step: count_at(words, 0),
            room: count_at(words, 1),
            reads: numbers_of(alloc, word_at(words, 2))?,
            outs: numbers_of(alloc, word_at(words, 3))?,
            notes: numbers_of(alloc, word_at(words, 4))?,
        })
    }
}

/// `call WORD..`: the status, and what the sinks took. Of the notes of a bad usage, behind whose line `clap`'s own text
/// stands, it is the line.
pub fn answer(
    alloc: Global,
    faults: &Faults,
    bytes: &[u8],
    words: &[&str],
) -> Result<String, NoMemory> {
    let took = call(alloc, faults, bytes, words)?;
    took.text(alloc)
}

/// What came of a call: its status, and what the sinks took.
#[derive(Drop)]
pub struct Took {
    code: u8,
    pub out: Vec<u8>,
    notes: Vec<u8>,
}

impl Took {
    /// How a row shows it.
    pub fn text(&self, alloc: Global) -> Result<String, NoMemory> {
        let code = self.code;
        let out = shown(alloc, &self.out)?;
        let notes = match code {
            2 => shown(alloc, &first_line(alloc, &self.notes)?)?,
            _ => shown(alloc, &self.notes)?,
        };
        Ok(format!(in alloc; "{code} '{out}' '{notes}'")?)
    }

    /// How a row shows a call that gave a file on `out`.
    pub fn file_text(&self, alloc: Global) -> Result<String, NoMemory> {
        let code = self.code;
        let size = self.out.len();
        let notes = shown(alloc, &self.notes)?;
        Ok(format!(in alloc; "{code} {size} '{notes}'")?)
    }

    /// How a row shows a call whose notes begin with a file.
    pub fn text_behind(&self, alloc: Global, file: &[u8]) -> Result<String, NoMemory> {
        let code = self.code;
        let out = shown(alloc, &self.out)?;
        if !self.notes.starts_with(file) {
            return Ok(format!(in alloc; "{code} '{out}' another file")?);
        }
        let (_file, line) = self.notes.split_at(file.len().min(self.notes.len()));
        let rest = shown(alloc, line)?;
        Ok(format!(in alloc; "{code} '{out}' the file and '{rest}'")?)
    }
}

/// Makes a call on a source.
pub fn call(
    alloc: Global,
    faults: &Faults,
    bytes: &[u8],
    words: &[&str],
) -> Result<Took, NoMemory> {
    let words = program_words(alloc, words)?;
    let step = faults.step.max(1);
    let mut source = MemSource::new(bytes.to_vec(alloc)?, step, faults.reads.clone()?);
    let mut out = MemSink::new(alloc, faults.room, faults.outs.clone()?)?;
    let mut notes = MemSink::new(alloc, 65_536, faults.notes.clone()?)?;
    let code = terrac(alloc, &words, &mut source, &mut out, &mut notes).code();
    Ok(Took {
        code,
        out: out.bytes().to_vec(alloc)?,
        notes: notes.bytes().to_vec(alloc)?,
    })
}

/// The program's words, its own name first.
fn program_words(alloc: Global, words: &[&str]) -> Result<Vec<String>, NoMemory> {
    let mut all = Vec::new(alloc);
    all.push(String::from_str(alloc, "terrac")?)?;
    for word in words {
        all.push(String::from_str(alloc, word)?)?;
    }
    Ok(all)
}

/// The bytes up to the first line end, which is left out.
fn first_line(alloc: Global, bytes: &[u8]) -> Result<Vec<u8>, NoMemory> {
    let mut line = Vec::new(alloc);
    for byte in bytes {
        if *byte == b'\n' {
            return Ok(line);
        }
        line.push(*byte)?;
    }
    Ok(line)
}
