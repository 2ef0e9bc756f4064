// Rows that make images, and images as rows show them.

use crate::words::byte_of;
use elf_image::{Entries, Entry, Image, Symbol, Symbols, Words, is_lawful, write};
use row_words::{hexadecimal, hexadecimal_bytes, word_at, words_of};
use std::alloc::Global;
use tl_base::{Bytes, NoMemory};

/// The image that stands.
#[derive(Drop)]
pub struct ImageRows {
    alloc: Global,
    image: Image,
}

impl ImageRows {
    /// An image without anything, which has no file.
    pub fn new(alloc: Global) -> ImageRows {
        ImageRows {
            alloc,
            image: Image {
                text: Words::new(alloc),
                statics: Bytes::new(alloc),
                entries: Entries::new(alloc),
                memory: 0,
                heap: 0,
                private: 0,
                exports: Symbols::new(alloc),
            },
        }
    }

    /// `image TEXT STATICS MEMORY HEAP PRIVATE`: an image without entries and exports.
    pub fn begin(&mut self, words: &[&str]) -> Result<String, NoMemory> {
        let alloc = self.alloc;
        self.image = Image {
            text: Words::from_vec(words_of(alloc, word_at(words, 1))?),
            statics: Bytes::from_vec(hexadecimal_bytes(alloc, word_at(words, 2))?),
            entries: Entries::new(alloc),
            memory: hexadecimal(word_at(words, 3)),
            heap: hexadecimal(word_at(words, 4)),
            private: hexadecimal(word_at(words, 5)),
            exports: Symbols::new(alloc),
        };
        shown(alloc, &self.image)
    }

    /// `entry ADDRESS SIGNATURE`: an entry more.
    pub fn entry(&mut self, words: &[&str]) -> Result<String, NoMemory> {
        self.image.entries.push(Entry {
            address: hexadecimal(word_at(words, 1)),
            signature: hexadecimal(word_at(words, 2)),
        })?;
        shown(self.alloc, &self.image)
    }

    /// `export NAME ADDRESS PARAMETERS RESULT`: an export more.
    pub fn export(&mut self, words: &[&str]) -> Result<String, NoMemory> {
        let alloc = self.alloc;
        self.image.exports.push(Symbol {
            name: Bytes::from_vec(word_at(words, 1).as_bytes().to_vec(alloc)?),
            address: hexadecimal(word_at(words, 2)),
            params: Bytes::from_vec(hexadecimal_bytes(alloc, word_at(words, 3))?),
            result: byte_of(word_at(words, 4)),
        })?;
        shown(alloc, &self.image)
    }

    /// `lawful`: whether the image has a file.
    pub fn lawful(&self) -> Result<String, NoMemory> {
        let lawful = is_lawful(&self.image);
        Ok(format!(in self.alloc; "{lawful}")?)
    }

    /// The image's file, if it has one.
    pub fn file(&self) -> Result<Option<Vec<u8>>, NoMemory> {
        if !is_lawful(&self.image) {
            return Ok(None);
        }
        Ok(Some(write(self.alloc, &self.image)?))
    }
}

/// An image as the rows write it, its entries and exports behind it.
pub fn shown(alloc: Global, image: &Image) -> Result<String, NoMemory> {
    let mut text = String::new(alloc);
    for word in image.text.as_slice() {
        let part = format!(in alloc; "{word:08x},")?;
        text.push_str(&part)?;
    }
    if text.pop().is_none() {
        text.push_str("-")?;
    }
    text.push_str(" ")?;
    push_bytes(alloc, &mut text, image.statics.as_slice())?;
    let (memory, heap, private) = (image.memory, image.heap, image.private);
    let part = format!(in alloc; " {memory:x} {heap:x} {private:x}")?;
    text.push_str(&part)?;
    for entry in image.entries.as_slice() {
        let (address, signature) = (entry.address, entry.signature);
        let part = format!(in alloc; " + {address:x} {signature:x}")?;
        text.push_str(&part)?;
    }
    for symbol in image.exports.as_slice() {
        push_symbol(alloc, &mut text, symbol)?;
    }
    Ok(text)
}

fn push_symbol(alloc: Global, text: &mut String, symbol: &Symbol) -> Result<(), NoMemory> {
    text.push_str("; ")?;
    push_name(alloc, text, symbol.name.as_slice())?;
    let address = symbol.address;
    let part = format!(in alloc; " {address:x} ")?;
    text.push_str(&part)?;
    push_bytes(alloc, text, symbol.params.as_slice())?;
    let returns = symbol.result;
    let part = format!(in alloc; " {returns:x}")?;
    text.push_str(&part)?;
    Ok(())
}

/// A name: bytes that stand for themselves, and others by a percent sign and their digits.
fn push_name(alloc: Global, text: &mut String, name: &[u8]) -> Result<(), NoMemory> {
    for byte in name {
        if *byte > 32 && *byte < 127 && *byte != b'%' {
            text.push(char::from(*byte))?;
        } else {
            let part = format!(in alloc; "%{byte:02x}")?;
            text.push_str(&part)?;
        }
    }
    Ok(())
}

/// Bytes by two digits each, or `-` for none.
fn push_bytes(alloc: Global, text: &mut String, bytes: &[u8]) -> Result<(), NoMemory> {
    if bytes.is_empty() {
        text.push_str("-")?;
    }
    for byte in bytes {
        let part = format!(in alloc; "{byte:02x}")?;
        text.push_str(&part)?;
    }
    Ok(())
}
