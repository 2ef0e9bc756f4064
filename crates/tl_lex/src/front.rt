// What stands at the front of a text.
ghost use Rattle.std.specs.Prelude.{◌≡◌, ◌+◌, ◌<◌, ◌≤◌, length, drop};
ghost use Rattle.std.specs.List.{prefix_len};
ghost use Rattle.tl_lex.specs.Bytes as classes;
ghost use Rattle.tl_lex.specs.Fronts as fronts;
ghost use Rattle.tl_lex.specs.Brackets as brackets;
ghost use Rattle.tl_lex.specs.Values as values;

use crate::brackets::{begins_with, bracket_level, inside_at};
use crate::bytes::{begins_name, is_digit, is_line_end, is_quote, is_white};
use crate::line_ends::count_line_ends;
use crate::numerals::numeral_front;
use crate::quoted::count_characters;
use crate::signs::{is_lone_sign, sign_front};
use crate::words::word_front;
use crate::{SyntaxKind, TokenKind};
use tl_base::Text;

/// The most bytes of a literal's value.
const LONGEST_VALUE: usize = Text::MAX_LEN;

/// What stands at the front of a text.
#[derive(Clone, Copy, PartialEq, Eq)]
pub(crate) enum Front {
    /// So many bytes of white space, or of a comment.
    Blank(usize),
    /// A token of so many bytes.
    Lexeme(TokenKind, usize),
    /// What breaks a rule.
    Refusal(SyntaxKind),
    /// The end of the text.
    End,
}

#[tactic(auto, using(crate::proofs::Prefixes::prefixes))]
fn white_len(bytes: &[u8]) -> usize
    ensures len { result ≡ prefix_len classes.is_white bytes.now }
    ensures within { result ≤ length bytes.now }
{
    bytes.iter().take_while(|c| is_white(**c)).count()
}

/// How many bytes come before the first line end.
#[tactic(auto, using(crate::proofs::Prefixes::prefixes))]
pub(crate) fn line_len(bytes: &[u8]) -> usize
    ensures len { result ≡ fronts.line_len bytes.now }
    ensures within { result ≤ length bytes.now }
{
    bytes.iter().take_while(|c| !is_line_end(**c)).count()
}

/// A literal in quotes.
#[tactic(auto, unfolding(crate::specs::Fronts::quoted_front))]
fn quoted_front(quote: u8, bytes: &[u8]) -> Front
    requires some { 0 < length bytes.now }
    ensures { result ≡ fronts.quoted_front quote bytes.now }
{
    let inside = count_characters(quote, &bytes[1..]);
    if !begins_with(quote, &bytes[1 + inside.source_len..]) {
        Front::Refusal(SyntaxKind::OpenText)
    } else if inside.has_bad_escape {
        Front::Refusal(SyntaxKind::BadEscape)
    } else if inside.count > LONGEST_VALUE {
        Front::Refusal(SyntaxKind::TextTooLong)
    } else {
        Front::Lexeme(TokenKind::Literal, inside.source_len + 2)
    }
}

/// How many bytes the value of a long literal has with these bytes inside.
fn long_value_len(inside: &[u8]) -> usize
    ensures { result ≡ length (values.long_value inside.now) }
{
    let len = count_line_ends(inside).len;
    if begins_with(b'\n', inside) || begins_with(b'\r', inside) {
        len - 1
    } else {
        len
    }
}

/// A literal in long brackets of this level.
#[tactic(auto, unfolding(crate::specs::Fronts::long_front))]
fn long_front(level: usize, bytes: &[u8]) -> Front
    requires { level + 2 ≤ length bytes.now }
    ensures { result ≡ fronts.long_front level bytes.now }
{
    match inside_at(level, bytes) {
        None => Front::Refusal(SyntaxKind::OpenText),
        Some(inside) => {
            if long_value_len(inside) > LONGEST_VALUE {
                Front::Refusal(SyntaxKind::TextTooLong)
            } else {
                Front::Lexeme(TokenKind::Literal, inside.len() + 2 * (level + 2))
            }
        }
    }
}

/// A comment.
#[tactic(auto, unfolding(crate::specs::Fronts::comment_front))]
fn comment_front(bytes: &[u8]) -> Front
    requires some { 2 ≤ length bytes.now }
    ensures { result ≡ fronts.comment_front bytes.now }
{
    let behind = &bytes[2..];
    match bracket_level(b'[', behind) {
        None => Front::Blank(line_len(bytes)),
        Some(level) => match inside_at(level, behind) {
            None => Front::Refusal(SyntaxKind::OpenText),
            Some(inside) => Front::Blank(2 + inside.len() + 2 * (level + 2)),
        },
    }
}

fn begins_comment(bytes: &[u8]) -> bool
    ensures { result ≡ fronts.begins_comment bytes.now }
{
    bytes.len() > 1 && bytes[0] == b'-' && bytes[1] == b'-'
}

#[inline(always)]
fn bracket_or_sign_front(bytes: &[u8]) -> Front
    ensures { result ≡ fronts.bracket_or_sign_front (brackets.bracket_level 91 bytes.now) bytes.now }
{
    match bracket_level(b'[', bytes) {
        Some(level) => long_front(level, bytes),
        None => sign_front(bytes),
    }
}

/// The front of a text, by its first byte.
#[tactic(auto, using(crate::proofs::LoneLemmas::lone_front), unfolding(crate::specs::Fronts::front_of))]
#[inline(always)]
pub(crate) fn front_of(bytes: &[u8]) -> Front
    ensures { result ≡ fronts.front_of bytes.now }
{
    if bytes.is_empty() {
        return Front::End;
    }
    let c = bytes[0];
    if is_white(c) {
        Front::Blank(white_len(bytes))
    } else if begins_name(c) {
        word_front(bytes)
    } else if is_lone_sign(c) {
        Front::Lexeme(TokenKind::Sign, 1)
    } else if is_digit(c) {
        numeral_front(bytes)
    } else if is_quote(c) {
        quoted_front(c, bytes)
    } else if begins_comment(bytes) {
        comment_front(bytes)
    } else {
        bracket_or_sign_front(bytes)
    }
}
