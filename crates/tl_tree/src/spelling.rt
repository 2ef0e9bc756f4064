// The symbols of the lexer's tokens.
ghost use Rattle.std.specs.Prelude.{◌≡◌, ◌<◌, ◌≤◌, [], ◌∷◌, length, bytes_eq};
ghost use Rattle.tl_tree.specs.Symbols as spec;
ghost use Rattle.tl_tree.specs.declared.symbol.Symbol.TheVariants as symbols;

use crate::symbol::Symbol;
use tl_lex::TokenKind;

/// Is the text this word? Most others differ from it in their first byte.
#[tactic(auto, using(crate::proofs::FirstBytes::first_differs))]
#[inline(always)]
fn is_word(text: &[u8], word: &[u8]) -> bool
    ensures { result ≡ bytes_eq text.now word.now }
{
    if !text.is_empty() && !word.is_empty() && text[0] != word[0] {
        return false;
    }
    text == word
}

fn two_byte_word(text: &[u8]) -> Symbol
    ensures { result ≡ spec.written (spec.of_length 2 spec.words) text.now }
{
    if is_word(text, b"do".as_slice()) {
        Symbol::Do
    } else if is_word(text, b"if".as_slice()) {
        Symbol::If
    } else if is_word(text, b"in".as_slice()) {
        Symbol::In
    } else if is_word(text, b"or".as_slice()) {
        Symbol::Or
    } else {
        Symbol::Finish
    }
}

fn three_byte_word(text: &[u8]) -> Symbol
    ensures { result ≡ spec.written (spec.of_length 3 spec.words) text.now }
{
    if is_word(text, b"and".as_slice()) {
        Symbol::And
    } else if is_word(text, b"end".as_slice()) {
        Symbol::End
    } else if is_word(text, b"for".as_slice()) {
        Symbol::For
    } else if is_word(text, b"nil".as_slice()) {
        Symbol::Nil
    } else if is_word(text, b"not".as_slice()) {
        Symbol::Not
    } else if is_word(text, b"var".as_slice()) {
        Symbol::Var
    } else {
        Symbol::Finish
    }
}

fn four_byte_word(text: &[u8]) -> Symbol
    ensures { result ≡ spec.written (spec.of_length 4 spec.words) text.now }
{
    if is_word(text, b"else".as_slice()) {
        Symbol::Else
    } else if is_word(text, b"then".as_slice()) {
        Symbol::Then
    } else if is_word(text, b"true".as_slice()) {
        Symbol::True
    } else if is_word(text, b"emit".as_slice()) {
        Symbol::Emit
    } else {
        Symbol::Finish
    }
}

fn five_byte_word(text: &[u8]) -> Symbol
    ensures { result ≡ spec.written (spec.of_length 5 spec.words) text.now }
{
    if is_word(text, b"break".as_slice()) {
        Symbol::Break
    } else if is_word(text, b"false".as_slice()) {
        Symbol::False
    } else if is_word(text, b"local".as_slice()) {
        Symbol::Local
    } else if is_word(text, b"until".as_slice()) {
        Symbol::Until
    } else if is_word(text, b"while".as_slice()) {
        Symbol::While
    } else if is_word(text, b"terra".as_slice()) {
        Symbol::Terra
    } else if is_word(text, b"quote".as_slice()) {
        Symbol::Quote
    } else {
        Symbol::Finish
    }
}

fn six_byte_word(text: &[u8]) -> Symbol
    ensures { result ≡ spec.written (spec.of_length 6 spec.words) text.now }
{
    if is_word(text, b"elseif".as_slice()) {
        Symbol::Elseif
    } else if is_word(text, b"repeat".as_slice()) {
        Symbol::Repeat
    } else if is_word(text, b"return".as_slice()) {
        Symbol::Return
    } else if is_word(text, b"escape".as_slice()) {
        Symbol::Escape
    } else if is_word(text, b"struct".as_slice()) {
        Symbol::Struct
    } else {
        Symbol::Finish
    }
}

fn eight_byte_word(text: &[u8]) -> Symbol
    ensures { result ≡ spec.written (spec.of_length 8 spec.words) text.now }
{
    if is_word(text, b"function".as_slice()) {
        Symbol::Function
    } else {
        Symbol::Finish
    }
}

/// The reserved word that is written so, by its length and then by comparison.
fn word_of(text: &[u8]) -> Symbol
    ensures { result ≡ spec.written spec.words text.now }
{
    match text.len() {
        2 => two_byte_word(text),
        3 => three_byte_word(text),
        4 => four_byte_word(text),
        5 => five_byte_word(text),
        6 => six_byte_word(text),
        8 => eight_byte_word(text),
        _ => Symbol::Finish,
    }
}

/// The sign that is this byte.
#[inline(always)]
fn single_sign(c: u8) -> Symbol
    ensures { result ≡ spec.written (spec.of_length 1 spec.signs) (c ∷ []) }
{
    match c {
        b'+' => Symbol::Plus,
        b'-' => Symbol::Minus,
        b'*' => Symbol::Star,
        b'/' => Symbol::Slash,
        b'%' => Symbol::Percent,
        b'^' => Symbol::Caret,
        b'#' => Symbol::Hash,
        b'<' => Symbol::Less,
        b'>' => Symbol::Greater,
        b'=' => Symbol::Equal,
        b'(' => Symbol::OpenParen,
        b')' => Symbol::CloseParen,
        b'{' => Symbol::OpenBrace,
        b'}' => Symbol::CloseBrace,
        b'[' => Symbol::OpenBracket,
        b']' => Symbol::CloseBracket,
        b';' => Symbol::Semicolon,
        b':' => Symbol::Colon,
        b',' => Symbol::Comma,
        b'.' => Symbol::Dot,
        b'@' => Symbol::At,
        b'&' => Symbol::Ampersand,
        b'`' => Symbol::Backtick,
        _ => Symbol::Finish,
    }
}

/// The sign that is these two bytes.
fn double_sign(c: u8, d: u8) -> Symbol
    ensures { result ≡ spec.written (spec.of_length 2 spec.signs) (c ∷ d ∷ []) }
{
    match (c, d) {
        (b'=', b'=') => Symbol::DoubleEqual,
        (b'~', b'=') => Symbol::NotEqual,
        (b'<', b'=') => Symbol::LessEqual,
        (b'>', b'=') => Symbol::GreaterEqual,
        (b':', b':') => Symbol::DoubleColon,
        (b'.', b'.') => Symbol::DoubleDot,
        (b'-', b'>') => Symbol::Arrow,
        (b'<', b'<') => Symbol::DoubleLess,
        (b'>', b'>') => Symbol::DoubleGreater,
        _ => Symbol::Finish,
    }
}

/// The sign that is written so, by its length and then by its bytes.
#[inline(always)]
fn sign_of(text: &[u8]) -> Symbol
    ensures { result ≡ spec.written spec.signs text.now }
{
    match text.len() {
        1 => single_sign(text[0]),
        2 => double_sign(text[0], text[1]),
        3 if text == b"...".as_slice() => Symbol::Ellipsis,
        _ => Symbol::Finish,
    }
}

/// A numeral by its suffix.
fn numeral_of(text: &[u8]) -> Symbol
    ensures { result ≡ spec.numeral_of text.now }
{
    if text.ends_with(b"ULL".as_slice()) {
        Symbol::UnsignedNumeral
    } else if text.ends_with(b"LL".as_slice()) {
        Symbol::LongNumeral
    } else {
        Symbol::Numeral
    }
}

/// The symbol of a token of the lexer. A word or sign that the lexer doesn't give is `Finish`.
#[tactic(auto, unfolding(crate::specs::Symbols::symbol_of))]
#[inline(always)]
pub fn symbol_of(kind: TokenKind, text: &str) -> Symbol
    ensures { result ≡ spec.symbol_of kind text.now }
{
    match kind {
        TokenKind::Name => Symbol::Name,
        TokenKind::Reserved => word_of(text.as_bytes()),
        TokenKind::Sign => sign_of(text.as_bytes()),
        TokenKind::Numeral => numeral_of(text.as_bytes()),
        TokenKind::Literal => Symbol::Literal,
        TokenKind::End => Symbol::Finish,
    }
}
