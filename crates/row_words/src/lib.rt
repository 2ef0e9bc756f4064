//! What the words of a row stand for: the programs of tests that read rows of standard input share this, and nothing else stands on it.
//!
//! Each reading answers something for every word, so that a row that is written badly shows in what comes of it.
#![tactic(auto)]

pub mod numbers;
pub mod operators;
pub mod sources;
pub mod texts;

pub use numbers::{digit_of, hexadecimal, number_at, short_count_at, words_of};
pub use operators::operator_of;
pub use sources::SourceRow;
pub use texts::{escaped, hexadecimal_bytes, unescaped};

/// A word of a row, and the empty one past the end.
pub fn word_at<'a>(words: &[&'a str], place: usize) -> &'a str {
    match words.get(place) {
        Some(word) => *word,
        None => "",
    }
}
