//! The tokens of the joint language of Lua and Terra code, with their places.
//!
//! [`Lexer`] gives the tokens of a text one after the other, and takes no memory. Its answers are `answers_of` the text
//! (`specs/Answers.antt`): a text is divided from left to right into white space, comments and tokens, each the longest of its
//! kind (`specs/Fronts.antt`), up to its end or to the first token that breaks a rule. `laws` has what the definition leaves
//! out: the division is the only one, and no longer front of the text is a token. [`literal_value`] gives the bytes that a
//! literal stands for.
#![tactic(auto)]

mod brackets;
mod bytes;
mod front;
pub mod laws;
pub mod lexer;
mod line_ends;
mod numerals;
mod places;
mod quoted;
mod signs;
pub mod token;
pub mod value;
mod words;

pub use lexer::Lexer;
use thiserror::Error;
use tl_base::Place;

/// The most bytes of a source.
pub const LONGEST_TEXT: usize = 1_048_576;

pub use token::Token;
pub use value::literal_value;

/// What a token is.
#[derive(Clone, Copy, PartialEq, Eq)]
pub enum TokenKind {
    /// A letter or `_`, then letters, digits and `_`, that is no reserved word.
    Name,
    /// One of Lua's reserved words, or `terra`, `quote`, `escape`, `emit`, `struct` or `var`.
    Reserved,
    /// An operator, a bracket or another mark of one to three bytes.
    Sign,
    /// Decimal digits, or `0x` and hexadecimal digits, with a suffix `LL`, `ULL` or none.
    Numeral,
    /// A text in quotes or in long brackets.
    Literal,
    /// The end of the text.
    End,
}

/// Why a text is refused. The lexer gives the first six; the others are the parser's and the reader's.
#[derive(Clone, Copy, Debug, PartialEq, Eq, Error)]
pub enum SyntaxKind {
    /// A byte that begins no token.
    #[error("BadByte")]
    BadByte,
    /// A text in quotes that meets a line end or the end, or a long bracket or comment that doesn't end.
    #[error("OpenText")]
    OpenText,
    /// A decimal escape above 255.
    #[error("BadEscape")]
    BadEscape,
    /// A run of letters, digits, `_` and `.` behind a digit that is no numeral, or a `.` before a digit.
    #[error("BadNumber")]
    BadNumber,
    /// A name of more than 255 bytes.
    #[error("NameTooLong")]
    NameTooLong,
    /// A literal whose value has more than 65,535 bytes.
    #[error("TextTooLong")]
    TextTooLong,
    /// A level of nesting or a chain beyond the limits.
    #[error("TooDeep")]
    TooDeep,
    /// A `(`, first on its line, that could begin a statement or continue an expression.
    #[error("Ambiguous")]
    Ambiguous,
    /// A token that no program has at this place.
    #[error("Unexpected")]
    Unexpected,
    /// A source of more than 1,048,576 bytes.
    #[error("TooLong")]
    TooLong,
    /// A source that isn't UTF-8.
    #[error("NotUtf8")]
    NotUtf8,
}

/// A refusal of a text, at the place where the refused token begins.
#[derive(Clone, Copy, Debug, PartialEq, Eq, Error)]
#[error("syntax {kind} at {}:{}", .place.line, .place.word)]
pub struct LexError {
    pub kind: SyntaxKind,
    pub place: Place,
}
