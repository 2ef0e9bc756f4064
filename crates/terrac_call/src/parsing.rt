// How a source reads.

ghost use Rattle.std.specs.Prelude.{◌≡◌, ◌≤◌, length, IfOk, IfErr};
ghost use Rattle.std.specs.Str.{IsUtf8};
ghost use Rattle.terrac_call.specs.Due.{IsReadAs, IsRefused, IsTextReadAs, nowhere};
ghost use Rattle.terrac_call.specs.ParsedView.{Shows};

use std::alloc::Global;
use tl_base::{NoMemory, Place};
use tl_lex::{LONGEST_TEXT, SyntaxKind};
use tl_parse::{SyntaxError, parse};
use tl_tree::Tree;

/// The place of what concerns a whole source.
pub(crate) const NOWHERE: Place = Place { line: 0, word: 0 };

/// What a source reads as.
#[derive(Drop)]
pub(crate) enum Parsed<'a> {
    /// It is refused.
    Refused(SyntaxKind, Place),
    Tree(Tree<'a>),
}

/// How a text reads.
fn parse_text<'a>(alloc: Global, text: &'a str) -> Result<Parsed<'a>, NoMemory>
    requires { length text.now ≤ LONGEST_TEXT }
    ensures { IfOk result (λ parsed. Shows (IsTextReadAs text.now) parsed) }
{
    match parse(alloc, text) {
        Ok(tree) => Ok(Parsed::Tree(tree)),
        Err(SyntaxError::Refused { kind, place }) => Ok(Parsed::Refused(kind, place)),
        Err(SyntaxError::NoMemory) => Err(NoMemory),
    }
}

/// The text of a source, or why it has none.
pub(crate) fn source_text(source: &[u8]) -> Result<&str, SyntaxKind>
    ensures same { IfOk result (λ text. text.now ≡ source.now) }
    ensures short { IfOk result (λ text. length text.now ≤ LONGEST_TEXT) }
    ensures utf8 { IfOk result (λ text. IsUtf8 source.now) }
    ensures refused { IfErr result (λ kind. IsReadAs source.now (IsRefused kind nowhere)) }
{
    if source.len() > LONGEST_TEXT {
        return Err(SyntaxKind::TooLong);
    }
    match str::from_utf8(source) {
        Ok(text) => Ok(text),
        Err(_) => Err(SyntaxKind::NotUtf8),
    }
}

/// How a source reads.
pub(crate) fn parse_source<'a>(alloc: Global, source: &'a [u8]) -> Result<Parsed<'a>, NoMemory>
    ensures { IfOk result (λ parsed. Shows (IsReadAs source.now) parsed) }
{
    match source_text(source) {
        Ok(text) => parse_text(alloc, text),
        Err(kind) => Ok(Parsed::Refused(kind, NOWHERE)),
    }
}
