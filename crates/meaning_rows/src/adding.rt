// The rows that add types, statics and functions.

use crate::building::Work;
use crate::doing::names_from;
use crate::running;
use row_words::{hexadecimal_bytes, number_at, short_count_at, word_at};
use std::alloc::Global;
use terra_term::{ParameterList, Term, TermList, Typed};
use terra_types::Entry;
use tl_base::{Bytes, FnId, NoMemory, Place, TermId, TextId, TypeId};

/// A type, a static, a function, the functions that stand as values, or what runs or lowers a function.
pub fn row(work: &mut Work, word: &str, words: &[&str]) -> Result<Option<String>, NoMemory> {
    let n = number_at(words, 1);
    match word {
        "pointer" => pointer(work, TypeId(n)),
        "array" => array(work, TypeId(n), number_at(words, 2)),
        "function" => function_type(work, words),
        "struct" => structure(work, words),
        "bytes" => bytes(work, words),
        "fn" => function(work, words),
        "entries" => entries(work, words),
        _ => running::row(work, word, words),
    }
}

/// `entries FUNCTION..`
fn entries(work: &mut Work, words: &[&str]) -> Result<Option<String>, NoMemory> {
    let alloc = work.store.allocator();
    let mut entries = Vec::new(alloc);
    for place in 1..words.len() {
        entries.push(FnId(number_at(words, place)))?;
    }
    work.entries = entries;
    work.codes = Vec::new(alloc);
    Ok(None)
}

fn number(alloc: Global, n: u64) -> Result<Option<String>, NoMemory> {
    Ok(Some(format!(in alloc; "{n}")?))
}

fn types_from(alloc: Global, words: &[&str], from: usize) -> Result<Vec<TypeId>, NoMemory> {
    let mut types = Vec::new(alloc);
    for place in from..words.len() {
        types.push(TypeId(number_at(words, place)))?;
    }
    Ok(types)
}

/// `struct TYPE..`
fn structure(work: &mut Work, words: &[&str]) -> Result<Option<String>, NoMemory> {
    let alloc = work.store.allocator();
    let t = work
        .store
        .types_mut()
        .new_struct(Place { line: 1, word: 1 })?;
    let mut entries = Vec::new(alloc);
    for (i, of) in types_from(alloc, words, 1)?.iter().enumerate() {
        entries.push(Entry {
            field: TextId(i as u64),
            of: *of,
        })?;
    }
    work.store.types_mut().settle(t, entries)?;
    number(alloc, t.0)
}

/// `bytes DIGITS`: a static, in a region of 65,536 bytes
fn bytes(work: &mut Work, words: &[&str]) -> Result<Option<String>, NoMemory> {
    let alloc = work.store.allocator();
    let bytes = Bytes::from_vec(hexadecimal_bytes(alloc, word_at(words, 1))?);
    let Some(id) = work.store.new_global(TypeId(4), bytes, 65_536)? else {
        return Ok(Some(String::from_str(alloc, "no room")?));
    };
    match work.store.global(id) {
        Some(global) => number(alloc, global.address),
        None => Ok(None),
    }
}

/// `fn COUNT RESULT NAME:TYPE..`, behind the body
fn function(work: &mut Work, words: &[&str]) -> Result<Option<String>, NoMemory> {
    let alloc = work.store.allocator();
    let parameters = names_from(alloc, words, 3)?;
    let body = work.take(short_count_at(words, 1))?;
    let node = Typed::Function(parameters, TypeId(number_at(words, 2)), body);
    let made = work.store.new_typed(node)?;
    let none = Term::Function(
        ParameterList::from_vec(Vec::new(alloc))?,
        None,
        TermList::from_vec(Vec::new(alloc))?,
    );
    let term = work.store.new_term(none)?;
    let f = typed_function(work, term, made)?;
    number(alloc, f.0)
}

fn typed_function(work: &mut Work, term: TermId, made: TermId) -> Result<FnId, NoMemory> {
    let place = Place { line: 2, word: 1 };
    let f = work.store.declare(None, place)?;
    work.store.define(f, term, place)?;
    work.store.begin_typing(f);
    work.store.finish_typing(f, made);
    Ok(f)
}

/// `pointer TYPE`
fn pointer(work: &mut Work, target: TypeId) -> Result<Option<String>, NoMemory> {
    let alloc = work.store.allocator();
    let types = work.store.types_mut();
    if target.0 >= types.len() {
        return Ok(Some(String::from_str(alloc, "no such type")?));
    }
    let t = types.pointer_to(target)?;
    number(alloc, t.0)
}

/// `array ELEMENT COUNT`
fn array(work: &mut Work, element: TypeId, count: u64) -> Result<Option<String>, NoMemory> {
    let alloc = work.store.allocator();
    let types = work.store.types_mut();
    if element.0 >= types.len() {
        return Ok(Some(String::from_str(alloc, "no such type")?));
    }
    let t = types.array_of(element, count)?;
    number(alloc, t.0)
}

/// `function RESULT PARAMETER..`, of at most two parameters
fn function_type(work: &mut Work, words: &[&str]) -> Result<Option<String>, NoMemory> {
    let alloc = work.store.allocator();
    let returns = TypeId(number_at(words, 1));
    let first = TypeId(number_at(words, 2));
    let second = TypeId(number_at(words, 3));
    let types = work.store.types_mut();
    let count = types.len();
    if returns.0 >= count || first.0 >= count || second.0 >= count {
        return Ok(Some(String::from_str(alloc, "no such type")?));
    }
    let t = match words.len() {
        2 => types.function_of(&[], returns)?,
        3 => types.function_of(&[first], returns)?,
        _ => types.function_of(&[first, second], returns)?,
    };
    number(alloc, t.0)
}
