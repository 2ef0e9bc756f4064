// Texts as the rows write them.

use row_words::{escaped, unescaped, word_at};
use std::alloc::Global;
use tl_base::NoMemory;

/// The text that a row writes; what isn't UTF-8 is none.
pub fn text_of(alloc: Global, written: &str) -> Result<String, NoMemory> {
    match String::from_utf8(unescaped(alloc, written)?) {
        Ok(text) => Ok(text),
        Err(_) => Ok(String::new(alloc)),
    }
}

/// `COUNT PART OPEN CLOSE`: the part so many times between the other two, which may be missing.
pub fn repeated_text(alloc: Global, row: &str) -> Result<String, NoMemory> {
    let words: Vec<&str> = row.split_whitespace().collect(alloc)?;
    let part = text_of(alloc, word_at(&words, 1))?;
    let close = text_of(alloc, word_at(&words, 3))?;
    let mut text = text_of(alloc, word_at(&words, 2))?;
    let count = word_at(&words, 0).parse::<u32>().unwrap_or(0);
    for _ in 0..count {
        text.push_str(&part)?;
    }
    text.push_str(&close)?;
    Ok(text)
}

/// Bytes as a row shows them, with spaces written as other bytes are.
pub fn shown(alloc: Global, bytes: &[u8]) -> Result<String, NoMemory> {
    escaped(alloc, bytes, b'!')
}
