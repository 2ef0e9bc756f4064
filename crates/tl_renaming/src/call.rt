// A text with its locals renamed, from the text on.
ghost use Rattle.std.specs.Prelude.{◌≡◌, ◌≤◌, [], length, string_bytes};
ghost use Rattle.std.specs.Str.{IsUtf8};
ghost use Rattle.tl_base.specs.declared.place.Place.{Place};
ghost use Rattle.tl_lex.specs.declared.SyntaxKind.{SyntaxKind};
ghost use Rattle.tl_tree.specs.Tree as trees;
ghost use Rattle.tl_tree.specs.Arena.{items_of};
ghost use Rattle.tl_tree.specs.Nodes.{lay};
ghost use Rattle.tl_tree.specs.Texts.{Reads, Refuses};
ghost use Rattle.tl_renaming.specs.Renamed.{renamed};
ghost use Rattle.tl_renaming.specs.Call.{GivesText, GivesRefusal, ComesOf};

use crate::text::renamed;
use std::alloc::Global;
use tl_base::Bytes;
use tl_lex::LONGEST_TEXT;
use tl_parse::{SyntaxError, parse};
use tl_tree::Tree;

/// The text of bytes that are UTF-8, with no allocation.
fn text_of(bytes: Bytes) -> String
    requires { IsUtf8 bytes }
    ensures { string_bytes result ≡ bytes }
{
    String::from_utf8(bytes.into_vec()).unwrap()
}

/// What a text with this tree becomes.
fn renamed_text(alloc: Global, tree: &Tree, text: &str) -> Result<String, SyntaxError>
    requires { IsUtf8 (renamed (items_of tree.now) text.now) }
    ensures { GivesText (renamed (items_of tree.now) text.now) result }
{
    let bytes = renamed(alloc, tree, text.as_bytes())?;
    Ok(text_of(bytes))
}

/// A text of Lua and Terra code with its locals renamed, or the refusal of its first token with which no such text goes on: names of local
/// variables, functions and structs, of parameters and of loop variables become `v1`, `v2` and so on, in order of their declarations in the
/// text, and so do their uses (Lua 5.1 manual, sections 2.4 and 2.6). Where the text has a name that is `v` and digits, the new names begin
/// with `vv`, and so on. All other bytes stay.
///
/// A text reads or is refused as by [`parse`]. Where no name has more than 248 bytes, the new text binds as the text does, and has its tokens
/// where that has them (`renaming_alike`). It may have more than `LONGEST_TEXT` bytes.
///
/// # Errors
///
/// `Refused` with the kind and the place of what is wrong with the text, or `NoMemory` where memory was not found.
pub fn rename(alloc: Global, text: &str) -> Result<String, SyntaxError>
    requires { length text.now ≤ LONGEST_TEXT }
    ensures text { (tree : trees.Tree) → Reads text.now tree → GivesText (renamed (lay tree []) text.now) result }
    ensures refused { (kind : SyntaxKind) (place : Place) → Refuses text.now kind place → GivesRefusal kind place result }
    ensures only { ComesOf text.now result }
{
    match parse(alloc, text) {
        Ok(tree) => renamed_text(alloc, &tree, text),
        Err(error) => Err(error),
    }
}
