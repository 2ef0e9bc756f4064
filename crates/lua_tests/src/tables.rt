// Rows of tables, in the heap and alone.

use crate::show::{push_word, show, show_entry, show_next, show_size, show_size_or_none};
use crate::words::value_at;
use lua_table::{Heap, Next, Table};
use lua_value::{Number, Value};
use row_words::{number_at, word_at};
use std::alloc::Global;
use tl_base::{NoMemory, TableId};

/// What comes of a row of tables, and `None` where it is none.
pub fn answer(heap: &mut Heap, word: &str, words: &[&str]) -> Result<Option<String>, NoMemory> {
    let alloc = heap.allocator();
    let table = TableId(number_at(words, 1));
    match word {
        "table" => {
            let table = Value::Table(heap.new_table()?);
            Ok(Some(show(heap, &table)?))
        }
        "set" => Ok(Some(store(heap, table, words)?)),
        "get" => {
            let key = value_at(heap, words, 2)?;
            let value = heap.get(table, key);
            Ok(Some(show(heap, &value)?))
        }
        "border" => Ok(Some(show_size(alloc, heap.border(table))?)),
        "next" => {
            let key = value_at(heap, words, 2)?;
            let next = heap.next(table, key);
            Ok(Some(show_next(heap, &next)?))
        }
        "walk" => Ok(Some(walk(heap, table)?)),
        "metatable" => Ok(Some(metatable(heap, table, words)?)),
        "fill" => Ok(Some(fill(alloc, number_at(words, 1), number_at(words, 2))?)),
        _ => Ok(None),
    }
}

/// Stores, and tells the border that follows.
fn store(heap: &mut Heap, table: TableId, words: &[&str]) -> Result<String, NoMemory> {
    let alloc = heap.allocator();
    let key = value_at(heap, words, 2)?;
    let value = value_at(heap, words, 3)?;
    if key.is_nil() {
        return Ok(String::from_str(alloc, "nil key")?);
    }
    heap.store(table, key, value)?;
    show_size(alloc, heap.border(table))
}

/// The entries of a table in the order of a walk.
fn walk(heap: &Heap, table: TableId) -> Result<String, NoMemory> {
    let mut text = String::new(heap.allocator());
    let mut key = Value::Nil;
    for _ in 0..1000 {
        match heap.next(table, key) {
            Next::Entry(next, value) => {
                let entry = show_entry(heap, &next, &value)?;
                push_word(&mut text, entry.as_str())?;
                key = next;
            }
            _ => break,
        }
    }
    Ok(text)
}

/// Sets the metatable of a table where the row has a third word, and tells the one that it has.
fn metatable(heap: &mut Heap, table: TableId, words: &[&str]) -> Result<String, NoMemory> {
    match word_at(words, 2) {
        "" => {}
        "none" => heap.set_metatable(table, None),
        _ => heap.set_metatable(table, Some(TableId(number_at(words, 2)))),
    }
    let metatable = match heap.metatable(table) {
        Some(metatable) => Some(metatable.0),
        None => None,
    };
    show_size_or_none(heap.allocator(), metatable)
}

/// Fills a table with the numbers from 1 on, each under itself, and tells the sum of what is read back, the border and how many entries
/// a walk finds; then the border with one of them emptied, and with it set again.
fn fill(alloc: Global, count: u64, hole: u64) -> Result<String, NoMemory> {
    let mut table = Table::new(alloc);
    for at in 1..count.saturating_add(1) {
        put(&mut table, at, number(at))?;
    }
    let mut sum = 0u64;
    for at in 1..count.saturating_add(1) {
        if table.get(number(at)).same(&number(at)) {
            sum = sum.wrapping_add(at);
        }
    }
    let full = table.border();
    let walked = count_entries(&table, count);
    put(&mut table, hole, Value::Nil)?;
    let emptied = table.border();
    put(&mut table, hole, Value::Boolean(true))?;
    let again = table.border();
    table.keys_differ();
    Ok(format!(in alloc;
        "sum {sum} border {full} entries {walked} emptied {emptied} again {again}"
    )?)
}

/// Stores under a number.
fn put(table: &mut Table, at: u64, value: Value) -> Result<(), NoMemory> {
    let key = number(at);
    if !key.is_nil() {
        table.set(key, value)?;
    }
    Ok(())
}

fn number(at: u64) -> Value {
    match i64::try_from(at) {
        Ok(at) => match Number::new(at) {
            Some(number) => Value::Number(number),
            None => Value::Nil,
        },
        Err(_) => Value::Nil,
    }
}

/// How many entries a walk finds, up to one more than is wanted.
fn count_entries(table: &Table, wanted: u64) -> u64 {
    let mut key = Value::Nil;
    let mut count = 0u64;
    for _ in 0..wanted.saturating_add(1) {
        match table.next(key) {
            Next::Entry(next, _) => {
                key = next;
                count = count.saturating_add(1);
            }
            _ => break,
        }
    }
    count
}
