// The tokens of texts, and their symbols.

ghost use Rattle.std.specs.Prelude.{◌≤◌, length};

use crate::texts::shown;
use std::alloc::Global;
use tl_base::NoMemory;
use tl_lex::{LONGEST_TEXT, LexError, Lexer, Token, TokenKind};
use tl_tree::symbol_of;

/// What a listing says of a token's text.
#[derive(Clone, Copy, PartialEq, Eq)]
pub enum Part {
    Text,
    Size,
}

/// The tokens of a text with their places, up to the end or a refusal. A star is at the first token of a line. The
/// lexer is asked once more behind the last answer, which it has to give again.
pub fn listing(alloc: Global, text: &str, part: Part) -> Result<String, NoMemory>
    requires { length text.now ≤ LONGEST_TEXT }
{
    let mut out = String::new(alloc);
    let mut lexer = Lexer::new(text);
    for _ in 0..100 {
        match lexer.next_token() {
            Ok(token) => {
                push_token(alloc, &mut out, token, part)?;
                if matches!(token.kind, TokenKind::End) {
                    push_again(&mut out, is_end_at(lexer.next_token(), token))?;
                    return Ok(out);
                }
            }
            Err(error) => {
                push_refusal(alloc, &mut out, error)?;
                push_again(
                    &mut out,
                    matches!(lexer.next_token(), Err(again) if again == error),
                )?;
                return Ok(out);
            }
        }
    }
    Ok(out)
}

fn is_end_at(answer: Result<Token<'_>, LexError>, end: Token<'_>) -> bool {
    match answer {
        Ok(token) => matches!(token.kind, TokenKind::End) && token.place == end.place,
        Err(_) => false,
    }
}

fn push_again(out: &mut String, is_same: bool) -> Result<(), NoMemory> {
    if !is_same {
        out.push_str(" and another answer")?;
    }
    Ok(())
}

fn push_token(
    alloc: Global,
    out: &mut String,
    token: Token<'_>,
    part: Part,
) -> Result<(), NoMemory> {
    if !out.is_empty() {
        out.push_str(" ")?;
    }
    out.push(letter(token.kind))?;
    if token.first_on_line {
        out.push_str("*")?;
    }
    let (line, word) = (token.place.line, token.place.word);
    let place = format!(in alloc; "{line}:{word}")?;
    out.push_str(&place)?;
    if !token.text.is_empty() {
        out.push_str(" ")?;
        push_text(alloc, out, token.text, part)?;
    }
    Ok(())
}

fn push_text(alloc: Global, out: &mut String, text: &str, part: Part) -> Result<(), NoMemory> {
    let written = match part {
        Part::Text => shown(alloc, text.as_bytes())?,
        Part::Size => {
            let size = text.len();
            format!(in alloc; "{size}")?
        }
    };
    out.push_str(&written)?;
    Ok(())
}

fn push_refusal(alloc: Global, out: &mut String, error: LexError) -> Result<(), NoMemory> {
    if !out.is_empty() {
        out.push_str(" ")?;
    }
    let text = format!(in alloc; "{error}")?;
    out.push_str(&text)?;
    Ok(())
}

fn letter(kind: TokenKind) -> char {
    match kind {
        TokenKind::Name => 'N',
        TokenKind::Reserved => 'R',
        TokenKind::Sign => 'S',
        TokenKind::Numeral => 'U',
        TokenKind::Literal => 'L',
        TokenKind::End => 'E',
    }
}

/// The symbols of a text's tokens, up to its end or the first refusal.
pub fn symbols(alloc: Global, text: &str) -> Result<String, NoMemory>
    requires { length text.now ≤ LONGEST_TEXT }
{
    let mut out = String::new(alloc);
    let mut lexer = Lexer::new(text);
    for _ in 0..100 {
        let Ok(token) = lexer.next_token() else {
            return Ok(out);
        };
        let symbol = symbol_of(token.kind, token.text);
        if !out.is_empty() {
            out.push_str(" ")?;
        }
        let word = format!(in alloc; "{symbol:?}")?;
        out.push_str(&word)?;
        if matches!(token.kind, TokenKind::End) {
            return Ok(out);
        }
    }
    Ok(out)
}
