// What the words of a row stand for.

use row_words::hexadecimal;

/// The lowest 8 bits of the number that a word writes by hexadecimal digits.
pub fn byte_of(word: &str) -> u8 {
    (hexadecimal(word) & 0xff) as u8
}
