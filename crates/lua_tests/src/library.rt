// Rows of the library's functions, and of the globals with which a source begins.

use crate::show::{push_word, show, show_bytes, show_next};
use crate::words::value_at;
use lua_base::{call, opening};
use lua_table::{Heap, LibCall, LibTurn};
use lua_value::{LibFn, Value, Values};
use row_words::number_at;
use tl_base::{Budget, NoMemory, Place, TableId};

/// What comes of a row of the library, and `None` where it is none.
pub fn answer(heap: &mut Heap, word: &str, words: &[&str]) -> Result<Option<String>, NoMemory> {
    match word {
        "call" => Ok(Some(called(heap, words)?)),
        "global" => Ok(Some(global(heap, words)?)),
        _ => Ok(None),
    }
}

/// Calls a function of the library with so many units, at the place 3:7, and tells what it answers, what is left, and what was
/// printed by it.
fn called(heap: &mut Heap, words: &[&str]) -> Result<String, NoMemory> {
    let alloc = heap.allocator();
    let function = match value_at(heap, words, 1)? {
        Value::Library(function) => function,
        _ => LibFn::Print,
    };
    let mut budget = Budget::new(number_at(words, 2));
    let mut args = Values::new(alloc);
    for place in 3..words.len() {
        args.push(value_at(heap, words, place)?)?;
    }
    let before = heap.printed().len();
    let asked = LibCall {
        function,
        args,
        place: Place { line: 3, word: 7 },
        outer: None,
    };
    let turn = answer_of(heap, &asked, &mut budget)?;
    let mut text = show_turn(heap, &turn)?;
    let left = budget.left();
    let units = format!(in alloc; "left {left}")?;
    push_word(&mut text, units.as_str())?;
    let printed = show_bytes(alloc, heap.printed().get(before..).unwrap_or(b""))?;
    push_word(&mut text, printed.as_str())?;
    Ok(text)
}

/// Asks the crate whose function is called.
fn answer_of(heap: &mut Heap, asked: &LibCall, budget: &mut Budget) -> Result<LibTurn, NoMemory> {
    match asked.function {
        LibFn::Byte
        | LibFn::Char
        | LibFn::Format
        | LibFn::Len
        | LibFn::Rep
        | LibFn::Sub
        | LibFn::Concat
        | LibFn::TableInsert
        | LibFn::Remove => lua_textlib::call(heap, asked, budget),
        _ => call(heap, asked, budget),
    }
}

/// What a function answers.
fn show_turn(heap: &Heap, turn: &LibTurn) -> Result<String, NoMemory> {
    let alloc = heap.allocator();
    match turn {
        LibTurn::Values(values) => {
            let mut text = String::from_str(alloc, "values")?;
            for value in values.as_slice() {
                let word = show(heap, value)?;
                push_word(&mut text, word.as_str())?;
            }
            Ok(text)
        }
        LibTurn::Raise(value, place) => {
            let word = show(heap, value)?;
            let line = place.line;
            let at = place.word;
            Ok(format!(in alloc; "raises {word} at {line}:{at}")?)
        }
        LibTurn::Spent => Ok(String::from_str(alloc, "spent")?),
        _ => Ok(String::from_str(alloc, "asks")?),
    }
}

/// What a new heap of a source has under a name of its globals, and what else it has there behind that in their order.
fn global(heap: &Heap, words: &[&str]) -> Result<String, NoMemory> {
    let mut opened = opening(heap.allocator())?;
    let key = value_at(&mut opened, words, 1)?;
    let value = opened.get(TableId(0), key);
    let mut text = show(&opened, &value)?;
    let key = value_at(&mut opened, words, 1)?;
    let next = show_next(&opened, &opened.next(TableId(0), key))?;
    push_word(&mut text, next.as_str())?;
    Ok(text)
}
