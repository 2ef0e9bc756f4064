// Rows of values alone.

use crate::show::{push_word, show, show_size, show_truth};
use crate::words::value_at;
use lua_table::Heap;
use lua_value::{Number, Value, Values, kind_name};
use row_words::word_at;
use tl_base::NoMemory;

/// What comes of a row of values, and `None` where it is none.
pub fn answer(heap: &mut Heap, word: &str, words: &[&str]) -> Result<Option<String>, NoMemory> {
    let alloc = heap.allocator();
    match word {
        "kind" => {
            let value = value_at(heap, words, 1)?;
            Ok(Some(String::from_str(alloc, kind_name(value))?))
        }
        "truth" => {
            let value = value_at(heap, words, 1)?;
            Ok(Some(show_truth(alloc, value.is_true())?))
        }
        "same" => {
            let a = value_at(heap, words, 1)?;
            let b = value_at(heap, words, 2)?;
            Ok(Some(show_truth(alloc, a.same(&b) && a == b)?))
        }
        "number" => Ok(Some(show_number(heap, word_at(words, 1))?)),
        "order" => Ok(Some(show_order(heap, words)?)),
        "values" => Ok(Some(show_values(heap, words)?)),
        _ => Ok(None),
    }
}

/// The number that a word writes, where it is in the profile.
fn show_number(heap: &Heap, word: &str) -> Result<String, NoMemory> {
    let alloc = heap.allocator();
    match word.parse::<i64>() {
        Ok(number) => match Number::new(number) {
            Some(number) => show(heap, &Value::Number(number)),
            None => Ok(String::from_str(alloc, "out of profile")?),
        },
        Err(_) => Ok(String::from_str(alloc, "no number")?),
    }
}

/// The place of a function of the library, or of one that Terra's library gives, in their order.
fn show_order(heap: &mut Heap, words: &[&str]) -> Result<String, NoMemory> {
    let alloc = heap.allocator();
    match value_at(heap, words, 1)? {
        Value::Library(function) => show_size(alloc, function.number()),
        Value::Primitive(primitive) => show_size(alloc, primitive.number()),
        _ => Ok(String::from_str(alloc, "no function")?),
    }
}

/// A list of values.
fn show_values(heap: &mut Heap, words: &[&str]) -> Result<String, NoMemory> {
    let mut values = Values::new(heap.allocator());
    for place in 1..words.len() {
        let value = value_at(heap, words, place)?;
        values.push(value)?;
    }
    let mut text = String::new(heap.allocator());
    for value in values.as_slice() {
        let word = show(heap, value)?;
        push_word(&mut text, word.as_str())?;
    }
    Ok(text)
}
