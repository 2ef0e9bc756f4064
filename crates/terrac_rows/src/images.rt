// Rows that make images, whose numbers are hexadecimal.

use crate::texts::codes_of;
use elf_image::{Entries, Entry, Image, Symbol, Symbols, Words, is_lawful, write};
use row_words::{hexadecimal, word_at, words_of};
use std::alloc::Global;
use tl_base::{Bytes, NoMemory};

/// The image that stands.
#[derive(Drop)]
pub struct ImageRows {
    alloc: Global,
    image: Image,
}

impl ImageRows {
    /// An image without text, entries and exports.
    pub fn new(alloc: Global) -> ImageRows {
        ImageRows {
            alloc,
            image: image_with(alloc, Words::new(alloc)),
        }
    }

    /// `image TEXT`: an image with this text, whose words stand with commas between them.
    pub fn begin(&mut self, words: &[&str]) -> Result<String, NoMemory> {
        let text = words_of(self.alloc, word_at(words, 0))?;
        self.image = image_with(self.alloc, Words::from_vec(text));
        Ok(String::from_str(self.alloc, "begun")?)
    }

    /// `entry ADDRESS SIGNATURE`: an entry more.
    pub fn entry(&mut self, words: &[&str]) -> Result<String, NoMemory> {
        self.image.entries.push(Entry {
            address: hexadecimal(word_at(words, 0)),
            signature: hexadecimal(word_at(words, 1)),
        })?;
        Ok(String::from_str(self.alloc, "added")?)
    }

    /// `export NAME ADDRESS RESULT CODES`: an export more.
    pub fn export(&mut self, words: &[&str]) -> Result<String, NoMemory> {
        let alloc = self.alloc;
        self.image.exports.push(Symbol {
            name: Bytes::from_vec(word_at(words, 0).as_bytes().to_vec(alloc)?),
            address: hexadecimal(word_at(words, 1)),
            params: Bytes::from_vec(codes_of(alloc, word_at(words, 3))?),
            result: (hexadecimal(word_at(words, 2)) & 0xff) as u8,
        })?;
        Ok(String::from_str(alloc, "added")?)
    }

    /// The image's file, if it has one.
    pub fn file(&self) -> Result<Option<Vec<u8>>, NoMemory> {
        if !is_lawful(&self.image) {
            return Ok(None);
        }
        Ok(Some(write(self.alloc, &self.image)?))
    }
}

/// An image with this text, without entries and exports.
fn image_with(alloc: Global, text: Words) -> Image {
    Image {
        text,
        statics: Bytes::new(alloc),
        entries: Entries::new(alloc),
        memory: 1_048_576,
        heap: 0x4000_0000,
        private: 8_192,
        exports: Symbols::new(alloc),
    }
}
