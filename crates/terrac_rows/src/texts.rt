// What the words of a row stand for, and texts as a row shows them.

ghost use Rattle.std.specs.Prelude.{◌<◌};

use row_words::{digit_of, escaped, word_at};
use std::alloc::Global;
use tl_base::NoMemory;

/// A decimal number of at most 32 bits, and 0 for every other word.
pub fn count_at(words: &[&str], place: usize) -> usize
    ensures { result < 4294967296 }
{
    match word_at(words, place).parse::<u32>() {
        Ok(number) => number as usize,
        Err(_) => 0,
    }
}

/// Type codes, by a digit each.
pub fn codes_of(alloc: Global, word: &str) -> Result<Vec<u8>, NoMemory> {
    let mut codes = Vec::new(alloc);
    for digit in word.as_bytes() {
        codes.push(digit_of(*digit))?;
    }
    Ok(codes)
}

/// The decimal numbers that stand with commas between them; `-` writes none.
pub fn numbers_of(alloc: Global, word: &str) -> Result<Vec<u64>, NoMemory> {
    let mut numbers = Vec::new(alloc);
    if word != "-" {
        for part in word.split(',') {
            numbers.push(part.parse::<u64>().unwrap_or(0))?;
        }
    }
    Ok(numbers)
}

/// Bytes as a row shows them.
pub fn shown(alloc: Global, bytes: &[u8]) -> Result<String, NoMemory> {
    escaped(alloc, bytes, b' ')
}
