// The rows that make types.

use crate::words::{number_of, type_at};
use row_words::{number_at, word_at};
use std::alloc::Global;
use terra_types::{Entry, Settled, Types};
use tl_base::{NoMemory, Place, TextId, TypeId};

/// A row that makes a type, or settles one.
pub fn row(
    alloc: Global,
    types: &mut Types,
    word: &str,
    words: &[&str],
) -> Result<Option<String>, NoMemory> {
    match word {
        "pointer" | "array" => derived(alloc, types, word, words),
        "function" => function(alloc, types, words),
        "struct" => {
            let id = types.new_struct(Place { line: 1, word: 1 })?;
            Ok(Some(id_text(alloc, id)?))
        }
        "settle" => Ok(Some(settled(alloc, types, words)?)),
        "len" => {
            let count = types.len();
            Ok(Some(format!(in alloc; "{count}")?))
        }
        _ => Ok(None),
    }
}

fn id_text(alloc: Global, id: TypeId) -> Result<String, NoMemory> {
    let number = id.0;
    Ok(format!(in alloc; "{number}")?)
}

/// `pointer TYPE`, or `array TYPE COUNT`
fn derived(
    alloc: Global,
    types: &mut Types,
    word: &str,
    words: &[&str],
) -> Result<Option<String>, NoMemory> {
    let of = type_at(words, 1);
    if of.0 >= types.len() {
        return Ok(None);
    }
    let id = match word {
        "pointer" => types.pointer_to(of)?,
        _ => types.array_of(of, number_at(words, 2))?,
    };
    Ok(Some(id_text(alloc, id)?))
}

/// `function RESULT`, which has no parameters, or `function RESULT PARAMETER COUNT`, with so many of one type
fn function(alloc: Global, types: &mut Types, words: &[&str]) -> Result<Option<String>, NoMemory> {
    let returns = type_at(words, 1);
    if returns.0 >= types.len() {
        return Ok(None);
    }
    let id = match words.len() {
        2 => types.function_of(&[], returns)?,
        _ => {
            let of = type_at(words, 2);
            if of.0 >= types.len() {
                return Ok(None);
            }
            match word_at(words, 3) {
                "1" => types.function_of(&[of], returns)?,
                _ => types.function_of(&[of, returns], returns)?,
            }
        }
    };
    Ok(Some(id_text(alloc, id)?))
}

/// `FIELD:TYPE`
fn entry_of(word: &str) -> Entry {
    let (field, of) = word.split_once(':').unwrap_or((word, ""));
    Entry {
        field: TextId(number_of(field)),
        of: TypeId(number_of(of)),
    }
}

/// `settle TYPE FIELD:TYPE..`
fn settled(alloc: Global, types: &mut Types, words: &[&str]) -> Result<String, NoMemory> {
    let of = type_at(words, 1);
    let mut entries = Vec::new(alloc);
    for place in 2..words.len() {
        entries.push(entry_of(word_at(words, place)))?;
    }
    if !types.is_unsettled(of) {
        return Ok(String::from_str(alloc, "no unsettled struct")?);
    }
    let text = match types.settle(of, entries)? {
        Settled::Done => "done",
        Settled::Bad => "bad",
    };
    Ok(String::from_str(alloc, text)?)
}
