// Numbers, and lists of them.

ghost use Rattle.std.specs.Prelude.{◌<◌};

use crate::word_at;
use std::alloc::Global;
use tl_base::NoMemory;

/// The decimal number at a place of a row, and 0 where there is none.
pub fn number_at(words: &[&str], place: usize) -> u64 {
    word_at(words, place).parse::<u64>().unwrap_or(0)
}

/// The decimal number at a place of a row, of at most 16 bits, for a count, a place or a size, and 0 where there is none.
pub fn short_count_at(words: &[&str], place: usize) -> usize
    ensures { result < 65536 }
{
    match word_at(words, place).parse::<u16>() {
        Ok(number) => usize::from(number),
        Err(_) => 0,
    }
}

/// The number that a word writes by hexadecimal digits, of which the last sixteen count.
pub fn hexadecimal(word: &str) -> u64 {
    let mut number = 0u64;
    for digit in word.as_bytes() {
        number = (number << 4) | u64::from(digit_of(*digit));
    }
    number
}

/// The value of a hexadecimal digit, and 0 for every other byte.
pub fn digit_of(byte: u8) -> u8
    ensures { result < 16 }
{
    match byte {
        b'0'..=b'9' => byte - b'0',
        b'a'..=b'f' => byte - b'a' + 10,
        _ => 0,
    }
}

/// The words of a text of code: hexadecimal numbers with commas between them, of which the lowest 32 bits count. `-` writes none.
pub fn words_of(alloc: Global, word: &str) -> Result<Vec<u32>, NoMemory> {
    let mut text = Vec::new(alloc);
    if word != "-" {
        for part in word.split(',') {
            text.push((hexadecimal(part) & 0xffff_ffff) as u32)?;
        }
    }
    Ok(text)
}
