// Literals in quotes.
ghost use Rattle.std.specs.Prelude.{◌≡◌, ◌+◌, ◌<◌, ◌≤◌, length, take};
ghost use Rattle.std.specs.List.{prefix_len};
ghost use Rattle.tl_lex.specs.Bytes as classes;
ghost use Rattle.tl_lex.specs.Quoted as quoted;

use crate::bytes::{is_digit, is_line_end};
use crate::line_ends::line_end_len;

/// A character of a literal in quotes: how many bytes it has in the source, and the byte that it stands for, which is above 255
/// at a bad escape.
#[derive(Clone, Copy, PartialEq, Eq)]
pub(crate) struct Character {
    pub(crate) len: usize,
    pub(crate) value: u16,
}

fn escaped_byte(c: u8) -> u8
    ensures { result ≡ quoted.escaped_byte c }
{
    match c {
        b'a' => 7,
        b'b' => 8,
        b'f' => 12,
        b'n' => 10,
        b'r' => 13,
        b't' => 9,
        b'v' => 11,
        _ => c,
    }
}

/// How many of the first three bytes are digits.
fn decimal_len(bytes: &[u8]) -> usize
    ensures { result ≡ quoted.decimal_len bytes.now }
{
    bytes.iter().take(3).take_while(|c| is_digit(**c)).count()
}

/// The number that at most three digits write.
fn decimal(digits: &[u8]) -> u16
    requires few { length digits.now ≤ 3 }
    ensures { result ≡ quoted.decimal digits.now }
{
    let mut number: u16 = 0;
    for d in digits {
        number = 10 * number + u16::from(d.saturating_sub(b'0'));
    }
    number
}

/// What follows a backslash.
#[tactic(auto, unfolding(crate::specs::Quoted::escape))]
fn escape(bytes: &[u8]) -> Character
    ensures { result ≡ quoted.escape bytes.now }
{
    if bytes.is_empty() {
        return Character { len: 0, value: 0 };
    }
    let c = bytes[0];
    if is_line_end(c) {
        Character {
            len: 1 + line_end_len(bytes),
            value: 10,
        }
    } else if is_digit(c) {
        let len = decimal_len(bytes);
        Character {
            len: 1 + len,
            value: decimal(&bytes[..len]),
        }
    } else {
        Character {
            len: 2,
            value: u16::from(escaped_byte(c)),
        }
    }
}

/// The first character of a text in these quotes. Its length is 0 at the closing quote, at a line end and at the end.
#[tactic(auto, unfolding(crate::specs::Quoted::quoted_character))]
pub(crate) fn quoted_character(quote: u8, bytes: &[u8]) -> Character
    ensures { result ≡ quoted.quoted_character quote bytes.now }
{
    if bytes.is_empty() {
        return Character { len: 0, value: 0 };
    }
    let c = bytes[0];
    if c == b'\\' {
        escape(&bytes[1..])
    } else if c == quote || is_line_end(c) {
        Character { len: 0, value: 0 }
    } else {
        Character {
            len: 1,
            value: u16::from(c),
        }
    }
}

/// The characters of a text in quotes, up to what is none.
#[derive(Clone, Copy, PartialEq, Eq)]
pub(crate) struct Characters {
    /// How many bytes they have in the source.
    pub(crate) source_len: usize,
    /// How many there are.
    pub(crate) count: usize,
    /// One of them stands for no byte.
    pub(crate) has_bad_escape: bool,
}

/// Goes over the characters of a text in these quotes.
pub(crate) fn count_characters(quote: u8, bytes: &[u8]) -> Characters
    ensures len { result.source_len ≡ quoted.source_len (quoted.characters quote bytes.now) }
    ensures within { result.source_len ≤ length bytes.now }
    ensures count { result.count ≡ length (quoted.characters quote bytes.now) }
    ensures bad { result.has_bad_escape ≡ quoted.has_bad_escape (quoted.characters quote bytes.now) }
{
    let mut source_len = 0;
    let mut count = 0;
    let mut has_bad_escape = false;
    'characters: loop {
        let character = quoted_character(quote, &bytes[source_len..]);
        if character.len == 0 {
            return Characters {
                source_len,
                count,
                has_bad_escape,
            };
        }
        source_len += character.len;
        count += 1;
        has_bad_escape = has_bad_escape || character.value > 255;
    }
}
