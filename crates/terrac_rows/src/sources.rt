// Rows that make sources.

use crate::texts::count_at;
use row_words::{unescaped, word_at};
use std::alloc::Global;
use tl_base::NoMemory;

/// The source that stands.
#[derive(Drop)]
pub struct SourceRows {
    alloc: Global,
    bytes: Vec<u8>,
}

impl SourceRows {
    /// A source without bytes.
    pub fn new(alloc: Global) -> SourceRows {
        SourceRows {
            alloc,
            bytes: Vec::new(alloc),
        }
    }

    /// The source.
    pub fn bytes(&self) -> &[u8] {
        self.bytes.as_slice()
    }

    /// Another source. It answers its size.
    pub fn replace(&mut self, bytes: Vec<u8>) -> Result<String, NoMemory> {
        self.bytes = bytes;
        self.size()
    }

    /// `more COUNT TEXT`: a text so many times at its end.
    pub fn more(&mut self, words: &[&str]) -> Result<String, NoMemory> {
        let part = unescaped(self.alloc, word_at(words, 1))?;
        for _ in 0..count_at(words, 0) {
            self.bytes.extend_from_slice(&part)?;
        }
        self.size()
    }

    /// `front COUNT`: the first bytes alone.
    pub fn front(&mut self, words: &[&str]) -> Result<String, NoMemory> {
        let count = count_at(words, 0);
        let (front, _rest) = self.bytes.split_at(count.min(self.bytes.len()));
        let front = front.to_vec(self.alloc)?;
        self.replace(front)
    }

    /// `set PLACE COUNT BYTE`: so many bytes from a place on become this one.
    pub fn set(&mut self, words: &[&str]) -> Result<String, NoMemory> {
        let from = count_at(words, 0);
        let byte = (count_at(words, 2) & 0xff) as u8;
        for place in from..from.saturating_add(count_at(words, 1)) {
            if let Some(found) = self.bytes.get_mut(place) {
                *found = byte;
            }
        }
        self.size()
    }

    fn size(&self) -> Result<String, NoMemory> {
        let size = self.bytes.len();
        Ok(format!(in self.alloc; "{size}")?)
    }
}
