// Values of literals.
ghost use Rattle.std.specs.Prelude.{◌≡◌, ◌+◌, ◌≤◌, ◌++◌, length, Some, None, IfOk};
ghost use Rattle.tl_lex.specs.LineEnds as ends;
ghost use Rattle.tl_lex.specs.Quoted as quoted;
ghost use Rattle.tl_lex.specs.Values as values;

use crate::brackets::{bracket_level, inside_at};
use crate::line_ends::{first_character, line_end_len};
use crate::quoted::quoted_character;
use std::alloc::Global;
use tl_base::NoMemory;

/// Appends what the characters of a text in these quotes stand for.
fn push_characters(value: &mut Vec<u8>, quote: u8, bytes: &[u8]) -> Result<(), NoMemory>
    ensures { IfOk result (λ _. value.new.items ≡ value.old.items ++ quoted.values (quoted.characters quote bytes.now)) }
{
    let mut at = 0;
    'characters: loop {
        let character = quoted_character(quote, &bytes[at..]);
        if character.len == 0 {
            return Ok(());
        }
        value.push((character.value % 256) as u8)?;
        at += character.len;
    }
}

/// Appends a text with each line end as one LF.
fn push_unified(value: &mut Vec<u8>, bytes: &[u8]) -> Result<(), NoMemory>
    ensures { IfOk result (λ _. value.new.items ≡ value.old.items ++ ends.with_line_feeds bytes.now) }
{
    let mut at = 0;
    'bytes: while at < bytes.len() {
        let character = first_character(&bytes[at..]);
        value.push(character.byte)?;
        at += character.len;
    }
    Ok(())
}

/// Appends the value of a literal in quotes, whose first byte is the quote.
fn push_quoted(value: &mut Vec<u8>, literal: &[u8]) -> Result<(), NoMemory>
    ensures { IfOk result (λ _. value.new.items ≡ value.old.items ++ values.value_by None literal.now) }
{
    if literal.is_empty() {
        return Ok(());
    }
    push_characters(value, literal[0], &literal[1..])
}

/// Appends the value of a literal in long brackets of this level.
fn push_long(value: &mut Vec<u8>, level: usize, literal: &[u8]) -> Result<(), NoMemory>
    requires { level + 2 ≤ length literal.now }
    ensures { IfOk result (λ _. value.new.items ≡ value.old.items ++ values.value_by (Some level) literal.now) }
{
    match inside_at(level, literal) {
        Some(inside) => push_unified(value, &inside[line_end_len(inside)..]),
        None => Ok(()),
    }
}

/// The value of a literal, which is given as the text of its token: the bytes between its quotes after escapes, or those
/// between its long brackets with each line end as LF and without a first line end (Lua 5.1 manual, section 2.1).
///
/// A decimal escape above 255, which no literal of the lexer has, gives its low byte. Fails for want of memory alone.
pub fn literal_value(alloc: Global, literal: &str) -> Result<Vec<u8>, NoMemory>
    ensures { IfOk result (λ v. v.items ≡ values.value_of literal.now) }
{
    let bytes = literal.as_bytes();
    let mut value = Vec::new(alloc);
    match bracket_level(b'[', bytes) {
        Some(level) => {
            push_long(&mut value, level, bytes)?;
            Ok(value)
        }
        None => {
            push_quoted(&mut value, bytes)?;
            Ok(value)
        }
    }
}
