// What comes out, as words of rows.

use lua_table::{Heap, Next};
use lua_value::{Primitive, Value};
use std::alloc::{AllocError, Global};
use tl_base::NoMemory;

/// A value as a word.
pub fn show(heap: &Heap, value: &Value) -> Result<String, NoMemory> {
    let alloc = heap.allocator();
    match value {
        Value::Nil => Ok(String::from_str(alloc, "nil")?),
        Value::Boolean(truth) => Ok(format!(in alloc; "{truth}")?),
        Value::Number(number) => {
            let number = number.get();
            Ok(format!(in alloc; "{number}")?)
        }
        Value::Text(text) => show_bytes(alloc, heap.text(*text)),
        Value::Library(function) => {
            let name = function.name();
            Ok(format!(in alloc; "lib:{name}")?)
        }
        Value::Primitive(primitive) => Ok(String::from_str(alloc, primitive_name(*primitive))?),
        _ => {
            let kind = value.kind().name();
            let number = number_of(value);
            Ok(format!(in alloc; "{kind}:{number}")?)
        }
    }
}

fn primitive_name(primitive: Primitive) -> &'static str {
    match primitive {
        Primitive::PutByte => "putbyte",
        Primitive::Write => "write",
        Primitive::Alloc => "alloc",
    }
}

/// The number that names a value among those of its kind.
fn number_of(value: &Value) -> u64 {
    match value {
        Value::Table(id) => id.0,
        Value::Closure(id) => id.0,
        Value::TerraFunction(id) => id.0,
        Value::TerraType(id) => id.0,
        Value::Quote(id) => id.0,
        Value::Symbol(id) => id.0,
        Value::Macro(id) => id.0,
        Value::Global(id) => id.0,
        Value::Constant(id) => id.0,
        _ => 0,
    }
}

/// Bytes as the word of a text. Of more than a hundred, how many they are and the last one.
pub fn show_bytes(alloc: Global, bytes: &[u8]) -> Result<String, NoMemory> {
    let mut word = String::from_str(alloc, "'")?;
    match bytes.last() {
        Some(last) if bytes.len() > 100 => {
            let len = bytes.len();
            let last = char::from(*last);
            word = format!(in alloc; "{len} bytes to {last}")?;
        }
        _ => {
            for byte in bytes {
                push_byte(&mut word, *byte)?;
            }
        }
    }
    Ok(word)
}

fn push_byte(word: &mut String, byte: u8) -> Result<(), AllocError> {
    if byte == b' ' {
        word.push('~')
    } else if byte < b' ' {
        word.push('^')?;
        word.push(char::from(byte | 64))
    } else {
        word.push(char::from(byte))
    }
}

/// Whether something holds.
pub fn show_truth(alloc: Global, truth: bool) -> Result<String, NoMemory> {
    Ok(format!(in alloc; "{truth}")?)
}

/// A number.
pub fn show_size(alloc: Global, size: u64) -> Result<String, NoMemory> {
    Ok(format!(in alloc; "{size}")?)
}

/// A number, or that there is none.
pub fn show_size_or_none(alloc: Global, size: Option<u64>) -> Result<String, NoMemory> {
    match size {
        Some(size) => show_size(alloc, size),
        None => Ok(String::from_str(alloc, "none")?),
    }
}

/// A key with its value.
pub fn show_entry(heap: &Heap, key: &Value, value: &Value) -> Result<String, NoMemory> {
    let mut text = show(heap, key)?;
    text.push_str(" -> ")?;
    let value = show(heap, value)?;
    text.push_str(value.as_str())?;
    Ok(text)
}

/// A step of a walk.
pub fn show_next(heap: &Heap, next: &Next) -> Result<String, NoMemory> {
    match next {
        Next::Entry(key, value) => show_entry(heap, key, value),
        Next::Last => Ok(String::from_str(heap.allocator(), "last")?),
        Next::NoKey => Ok(String::from_str(heap.allocator(), "no key")?),
    }
}

/// Puts a word behind others, and a space between.
pub fn push_word(text: &mut String, word: &str) -> Result<(), AllocError> {
    if !text.is_empty() {
        text.push(' ')?;
    }
    text.push_str(word)
}
