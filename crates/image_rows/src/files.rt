// Rows that make files and read them.

use crate::images::shown;
use crate::words::byte_of;
use elf_image::{ImageError, LONGEST_IMAGE, read};
use row_words::{hexadecimal_bytes, short_count_at, word_at};
use std::alloc::Global;
use tl_base::NoMemory;

/// The file that stands.
#[derive(Drop)]
pub struct FileRows {
    alloc: Global,
    bytes: Vec<u8>,
}

impl FileRows {
    /// A file without bytes.
    pub fn new(alloc: Global) -> FileRows {
        FileRows {
            alloc,
            bytes: Vec::new(alloc),
        }
    }

    /// `file BYTES`: a file, by its size.
    pub fn begin(&mut self, words: &[&str]) -> Result<String, NoMemory> {
        self.bytes = hexadecimal_bytes(self.alloc, word_at(words, 1))?;
        self.size()
    }

    /// `more BYTES`: more at its end.
    pub fn more(&mut self, words: &[&str]) -> Result<String, NoMemory> {
        let more = hexadecimal_bytes(self.alloc, word_at(words, 1))?;
        self.bytes.extend_from_slice(&more)?;
        self.size()
    }

    /// `insert PLACE BYTES`: more before a place.
    pub fn insert(&mut self, words: &[&str]) -> Result<String, NoMemory> {
        let more = hexadecimal_bytes(self.alloc, word_at(words, 2))?;
        let behind = self
            .bytes
            .split_off(short_count_at(words, 1).min(self.bytes.len()))?;
        self.bytes.extend_from_slice(&more)?;
        self.bytes.extend_from_slice(&behind)?;
        self.size()
    }

    /// `set PLACE BYTE`: another byte at a place. It answers the one before.
    pub fn set(&mut self, words: &[&str]) -> Result<String, NoMemory> {
        match self.bytes.get_mut(short_count_at(words, 1)) {
            Some(byte) => {
                let before = *byte;
                *byte = byte_of(word_at(words, 2));
                Ok(format!(in self.alloc; "{before:02x}")?)
            }
            None => Ok(String::from_str(self.alloc, "no such place")?),
        }
    }

    /// Another file. It answers its size, and whether it is the one that stood.
    pub fn replace(&mut self, bytes: Vec<u8>) -> Result<String, NoMemory> {
        let kind = if bytes.as_slice() == self.bytes.as_slice() {
            "same"
        } else {
            "other"
        };
        let size = bytes.len();
        self.bytes = bytes;
        Ok(format!(in self.alloc; "{size} {kind}")?)
    }

    fn size(&self) -> Result<String, NoMemory> {
        let size = self.bytes.len();
        Ok(format!(in self.alloc; "{size}")?)
    }

    /// `read`: the image, or why there is none.
    pub fn read(&self) -> Result<String, NoMemory> {
        answer_to(self.alloc, &self.bytes)
    }

    /// `each FROM TO BYTE`: what comes of the file with this byte at each of the places where another stands.
    pub fn each(&mut self, words: &[&str]) -> Result<String, NoMemory> {
        let byte = byte_of(word_at(words, 3));
        let mut answers = Answers::new(self.alloc);
        for place in short_count_at(words, 1)..short_count_at(words, 2).min(self.bytes.len()) {
            if let Some(answer) = self.answer_with(place, byte)? {
                answers.add(answer)?;
            }
        }
        Ok(answers.text)
    }

    /// What comes of the file with this byte at a place, and None where it stands there. A bad field that begins there
    /// is named `here`.
    fn answer_with(&mut self, place: usize, byte: u8) -> Result<Option<String>, NoMemory> {
        let Some(before) = exchange(&mut self.bytes, place, byte) else {
            return Ok(None);
        };
        let answer = self.read()?;
        let _byte = exchange(&mut self.bytes, place, before);
        let here = format!(in self.alloc; "bad field at {place}")?;
        if answer.as_str() == here.as_str() {
            return Ok(Some(String::from_str(self.alloc, "bad field here")?));
        }
        Ok(Some(answer))
    }

    /// `fronts FROM TO`: what comes of the fronts of these lengths.
    pub fn fronts(&self, words: &[&str]) -> Result<String, NoMemory> {
        let mut answers = Answers::new(self.alloc);
        for length in short_count_at(words, 1)..short_count_at(words, 2).min(self.bytes.len()) {
            let (front, _rest) = self.bytes.split_at(length);
            answers.add(answer_to(self.alloc, front)?)?;
        }
        Ok(answers.text)
    }
}

/// Puts a byte where another stands, which it answers.
fn exchange(bytes: &mut [u8], place: usize, byte: u8) -> Option<u8> {
    match bytes.get_mut(place) {
        Some(stands) if *stands != byte => {
            let before = *stands;
            *stands = byte;
            Some(before)
        }
        _ => None,
    }
}

/// The image of bytes, or why there is none.
fn answer_to(alloc: Global, bytes: &[u8]) -> Result<String, NoMemory> {
    if bytes.len() > LONGEST_IMAGE {
        return Ok(String::from_str(alloc, "too long")?);
    }
    match read(alloc, bytes) {
        Ok(image) => shown(alloc, &image),
        Err(ImageError::NoMemory) => Err(NoMemory),
        Err(error) => Ok(format!(in alloc; "{error}")?),
    }
}

/// Answers with bars between them; one that comes again at once stands there once.
#[derive(Drop)]
struct Answers {
    alloc: Global,
    last: String,
    text: String,
}

impl Answers {
    fn new(alloc: Global) -> Answers {
        Answers {
            alloc,
            last: String::new(alloc),
            text: String::new(alloc),
        }
    }

    fn add(&mut self, answer: String) -> Result<(), NoMemory> {
        if answer.as_str() == self.last.as_str() {
            return Ok(());
        }
        if !self.text.is_empty() {
            self.text.push_str(" | ")?;
        }
        self.text.push_str(&answer)?;
        self.last = answer;
        Ok(())
    }
}
