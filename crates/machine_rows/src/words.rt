// What the words of a row stand for.

use row_words::{hexadecimal, word_at};
use std::alloc::Global;
use tl_base::NoMemory;

/// The lowest 32 bits of the number that a word writes by hexadecimal digits.
pub fn word_of(word: &str) -> u32 {
    (hexadecimal(word) & 0xffff_ffff) as u32
}

/// The numbers from a word of the row on.
pub fn numbers_from(alloc: Global, words: &[&str], from: usize) -> Result<Vec<u64>, NoMemory> {
    let mut numbers = Vec::new(alloc);
    for place in from..words.len() {
        numbers.push(hexadecimal(word_at(words, place)))?;
    }
    Ok(numbers)
}
