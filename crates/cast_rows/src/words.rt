// What the words of a row stand for.

use row_words::number_at;
use tl_base::TypeId;

/// A number that a word writes, and 0 where it writes none.
pub fn number_of(word: &str) -> u64 {
    word.parse::<u64>().unwrap_or(0)
}

/// The type at a place of a row.
pub fn type_at(words: &[&str], place: usize) -> TypeId {
    TypeId(number_at(words, place))
}
