// Signs.
ghost use Rattle.std.specs.Prelude.{◌≡◌, ◌<◌, ◌≤◌, length};
ghost use Rattle.tl_lex.specs.Signs as signs;

use crate::bytes::is_digit;
use crate::front::Front;
use crate::{SyntaxKind, TokenKind};

#[inline(always)]
fn is_single_sign(c: u8) -> bool
    ensures { result ≡ signs.is_single_sign c }
{
    match c {
        b'+' | b'-' | b'*' | b'/' | b'%' | b'^' | b'#' | b'<' | b'>' | b'=' => true,
        b'(' | b')' | b'{' | b'}' | b'[' | b']' | b';' | b':' | b',' | b'.' => true,
        b'@' | b'&' | b'`' => true,
        _ => false,
    }
}

/// Signs of one byte with which no longer sign begins, and no comment and no long bracket.
pub(crate) fn is_lone_sign(c: u8) -> bool
    ensures { result ≡ signs.is_lone_sign c }
{
    match c {
        b'#' | b'%' | b'&' | b'(' | b')' | b'*' | b'+' | b',' | b'/' => true,
        b';' | b'@' | b']' | b'^' | b'`' | b'{' | b'}' => true,
        _ => false,
    }
}

fn is_double_sign(c: u8, d: u8) -> bool
    ensures { result ≡ signs.is_double_sign c d }
{
    match c {
        b'=' | b'~' => d == b'=',
        b'<' => d == b'=' || d == b'<',
        b'>' => d == b'=' || d == b'>',
        b'-' => d == b'>',
        b':' => d == b':',
        b'.' => d == b'.',
        _ => false,
    }
}

/// How many bytes the longest sign has at the front, or 0.
#[tactic(auto, unfolding(crate::specs::Signs::sign_len))]
fn sign_len(bytes: &[u8]) -> usize
    ensures { result ≡ signs.sign_len bytes.now }
{
    if bytes.is_empty() {
        return 0;
    }
    let c = bytes[0];
    if bytes.len() > 2 && c == b'.' && bytes[1] == b'.' && bytes[2] == b'.' {
        3
    } else if bytes.len() > 1 && is_double_sign(c, bytes[1]) {
        2
    } else if is_single_sign(c) {
        1
    } else {
        0
    }
}

fn is_point_and_digit(bytes: &[u8]) -> bool
    ensures { result ≡ signs.is_point_and_digit bytes.now }
{
    bytes.len() > 1 && bytes[0] == b'.' && is_digit(bytes[1])
}

/// The front of a text that begins with a sign or with no token.
#[tactic(auto, unfolding(crate::specs::Signs::sign_front))]
#[inline(always)]
pub(crate) fn sign_front(bytes: &[u8]) -> Front
    ensures { result ≡ signs.sign_front bytes.now }
{
    let len = sign_len(bytes);
    if len == 0 {
        Front::Refusal(SyntaxKind::BadByte)
    } else if len == 1 && is_point_and_digit(bytes) {
        Front::Refusal(SyntaxKind::BadNumber)
    } else {
        Front::Lexeme(TokenKind::Sign, len)
    }
}
