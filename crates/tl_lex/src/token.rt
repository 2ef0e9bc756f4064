// Tokens.
use crate::TokenKind;
use tl_base::Place;

/// A token, with its slice of the source.
#[derive(Clone, Copy)]
pub struct Token<'a> {
    pub kind: TokenKind,
    /// The bytes of the token, quotes and brackets included; empty at the end.
    pub text: &'a str,
    pub place: Place,
    /// How many bytes of the source are before it.
    pub offset: u32,
    /// No token begins earlier on its line.
    pub first_on_line: bool,
}
