//! Makes the calls of `terrac` that the rows of standard input say, one row a line, and writes each row with what came
//! out. What is expected in `stdout` is by hand from docs/LANGUAGE.md and docs/IMAGE.md.
//!
//! In a text a percent sign and two hexadecimal digits stand for a byte.
#![tactic(auto)]

mod calls;
mod images;
mod sources;
mod texts;

use calls::Faults;
use images::ImageRows;
use row_words::unescaped;
use sources::SourceRows;
use std::alloc::Global;
use texts::count_at;
use tl_base::NoMemory;

fn main(rt: HostRuntime) -> anyhow::Result<()> {
    let alloc = rt.alloc();
    let mut bench = Bench::new(alloc);
    for line in rt.lines(alloc) {
        let line = line?;
        let row = line.as_str();
        if row.is_empty() || row.starts_with("--") {
            continue;
        }
        let answer = bench.answer(row)?;
        println!(rt; "{row} = {answer}")?;
    }
    Ok(())
}

/// The source, the image and the faults that stand.
#[derive(Drop)]
struct Bench {
    alloc: Global,
    sources: SourceRows,
    images: ImageRows,
    faults: Faults,
    /// The file that a call gave.
    kept: Vec<u8>,
}

impl Bench {
    fn new(alloc: Global) -> Bench {
        Bench {
            alloc,
            sources: SourceRows::new(alloc),
            images: ImageRows::new(alloc),
            faults: Faults::none(alloc),
            kept: Vec::new(alloc),
        }
    }

    /// What comes of a row.
    fn answer(&mut self, row: &str) -> Result<String, NoMemory> {
        let alloc = self.alloc;
        let (word, rest) = match row.split_once(' ') {
            Some(parts) => parts,
            None => (row, ""),
        };
        let words: Vec<&str> = rest.split_whitespace().collect(alloc)?;
        match word {
            "source" => self.sources.replace(unescaped(alloc, rest)?),
            "more" => self.sources.more(&words),
            "image" => self.images.begin(&words),
            "entry" => self.images.entry(&words),
            "export" => self.images.export(&words),
            "file" => match self.images.file()? {
                Some(bytes) => self.sources.replace(bytes),
                None => Ok(String::from_str(alloc, "no lawful image")?),
            },
            "faults" => {
                self.faults = Faults::of(alloc, &words)?;
                Ok(String::from_str(alloc, "set")?)
            }
            "front" => self.sources.front(&words),
            "set" => self.sources.set(&words),
            "keep" => self.keep(&words),
            "kept" => {
                let kept = self.kept.clone()?;
                self.sources.replace(kept)
            }
            "shows" => self.shows(&words),
            "call" => calls::answer(alloc, &self.faults, self.sources.bytes(), &words),
            "fronts" => self.fronts(&words),
            _ => Ok(String::from_str(alloc, "no such row")?),
        }
    }

    /// `keep WORD..`: a call whose `out` is kept as a file. It answers its status, its size, and the notes.
    fn keep(&mut self, words: &[&str]) -> Result<String, NoMemory> {
        let took = calls::call(self.alloc, &self.faults, self.sources.bytes(), words)?;
        self.kept = took.out.clone()?;
        took.file_text(self.alloc)
    }

    /// `shows WORD..`: a call whose notes begin with the file that is kept.
    fn shows(&self, words: &[&str]) -> Result<String, NoMemory> {
        let took = calls::call(self.alloc, &self.faults, self.sources.bytes(), words)?;
        took.text_behind(self.alloc, &self.kept)
    }

    /// `fronts FROM TO WORD..`: what comes of the fronts of these lengths, each answer once where it comes again at once.
    fn fronts(&self, words: &[&str]) -> Result<String, NoMemory> {
        let alloc = self.alloc;
        let bytes = self.sources.bytes();
        let mut text = String::new(alloc);
        let mut last = String::new(alloc);
        let (from, to) = (count_at(words, 0), count_at(words, 1));
        let (_lengths, call) = words.split_at(words.len().min(2));
        for length in from..to.min(bytes.len()) {
            let (front, _rest) = bytes.split_at(length);
            let answer = calls::answer(alloc, &self.faults, front, call)?;
            if answer.as_str() != last.as_str() {
                if !text.is_empty() {
                    text.push_str(" | ")?;
                }
                text.push_str(&answer)?;
                last = answer;
            }
        }
        Ok(text)
    }
}
