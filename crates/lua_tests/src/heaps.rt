// Rows of what else the heap holds.

use crate::show::{push_word, show, show_bytes, show_size, show_size_or_none};
use crate::words::{bytes_of, text_value, value_at};
use lua_table::{Cells, Closure, Heap};
use lua_value::Value;
use row_words::{number_at, word_at};
use std::alloc::Global;
use tl_base::{CellId, ClosureId, EnvId, MacroId, NoMemory, NodeId};

/// What comes of a row of the heap, and `None` where it is none.
pub fn answer(heap: &mut Heap, word: &str, words: &[&str]) -> Result<Option<String>, NoMemory> {
    match word {
        "text" | "find" | "long" => Ok(Some(texts(heap, word, words)?)),
        "cell" | "read_cell" | "set_cell" => Ok(Some(cells(heap, word, words)?)),
        "env" | "block" | "outer" | "declare" | "declared" => {
            Ok(Some(environments(heap, word, words)?))
        }
        "closure" | "read_closure" | "macro" | "read_macro" => {
            Ok(Some(functions(heap, word, words)?))
        }
        "print" | "printed" => Ok(Some(output(heap, word, words)?)),
        "begin_call" | "end_call" | "calls" => Ok(Some(calls(heap, word)?)),
        "cells" => Ok(Some(list(heap.allocator(), words)?)),
        _ => Ok(None),
    }
}

/// Interns a text, looks for one, or interns one of so many bytes of which the last one is given.
fn texts(heap: &mut Heap, word: &str, words: &[&str]) -> Result<String, NoMemory> {
    let alloc = heap.allocator();
    heap.texts_are_interned();
    if word == "long" {
        let count = number_at(words, 1).min(100_000);
        let mut bytes = vec![in alloc; b'x'; count as usize]?;
        let last = bytes_of(heap, word_at(words, 2))?;
        bytes.extend_from_slice(&last)?;
        let value = text_value(heap, &bytes)?;
        return show(heap, &value);
    }
    let bytes = bytes_of(heap, word_at(words, 1))?;
    if word == "text" {
        text_value(heap, &bytes)?;
    }
    let found = match heap.find(&bytes) {
        Some(text) => Some(text.0),
        None => None,
    };
    show_size_or_none(alloc, found)
}

/// Makes a cell, reads one or sets one.
fn cells(heap: &mut Heap, word: &str, words: &[&str]) -> Result<String, NoMemory> {
    let cell = CellId(number_at(words, 1));
    match word {
        "cell" => {
            let value = value_at(heap, words, 1)?;
            let cell = heap.new_cell(value)?;
            show_size(heap.allocator(), cell.0)
        }
        "set_cell" => {
            let value = value_at(heap, words, 2)?;
            heap.set_cell(cell, value);
            show(heap, &heap.cell(cell))
        }
        _ => show(heap, &heap.cell(cell)),
    }
}

/// Makes an environment, reads one, or declares a cell in one.
fn environments(heap: &mut Heap, word: &str, words: &[&str]) -> Result<String, NoMemory> {
    let alloc = heap.allocator();
    let env = EnvId(number_at(words, 1));
    match word {
        "env" => {
            let outer = match word_at(words, 2) {
                "none" => None,
                _ => Some(EnvId(number_at(words, 2))),
            };
            let env = heap.new_env(NodeId(number_at(words, 1)), outer)?;
            show_size(alloc, env.0)
        }
        "block" => show_size(alloc, heap.block(env).0),
        "outer" => {
            let outer = match heap.outer(env) {
                Some(outer) => Some(outer.0),
                None => None,
            };
            show_size_or_none(alloc, outer)
        }
        "declare" => {
            heap.declare(env, CellId(number_at(words, 2)))?;
            show_cells(alloc, heap.declared(env))
        }
        _ => show_cells(alloc, heap.declared(env)),
    }
}

fn show_cells(alloc: Global, cells: &[CellId]) -> Result<String, NoMemory> {
    let mut text = String::new(alloc);
    for cell in cells {
        let number = show_size(alloc, cell.0)?;
        push_word(&mut text, number.as_str())?;
    }
    Ok(text)
}

/// A list of cells.
fn list(alloc: Global, words: &[&str]) -> Result<String, NoMemory> {
    let mut cells = Cells::new(alloc);
    for place in 1..words.len() {
        cells.push(CellId(number_at(words, place)))?;
    }
    show_cells(alloc, cells.as_slice())
}

/// Makes a function or a macro, or reads one.
fn functions(heap: &mut Heap, word: &str, words: &[&str]) -> Result<String, NoMemory> {
    let alloc = heap.allocator();
    let first = number_at(words, 1);
    match word {
        "closure" => {
            let closure = Closure {
                function: NodeId(first),
                env: EnvId(number_at(words, 2)),
            };
            let value = Value::Closure(heap.new_closure(closure)?);
            show(heap, &value)
        }
        "read_closure" => {
            let closure = heap.closure(ClosureId(first));
            let function = closure.function.0;
            let env = closure.env.0;
            Ok(format!(in alloc; "node {function} in {env}")?)
        }
        "macro" => {
            let value = Value::Macro(heap.new_macro(ClosureId(first))?);
            show(heap, &value)
        }
        _ => show(heap, &Value::Closure(heap.macro_function(MacroId(first)))),
    }
}

/// Prints, and tells what was printed.
fn output(heap: &mut Heap, word: &str, words: &[&str]) -> Result<String, NoMemory> {
    if word == "print" {
        let bytes = bytes_of(heap, word_at(words, 1))?;
        heap.print(&bytes)?;
    }
    show_bytes(heap.allocator(), heap.printed())
}

/// Begins a call where fewer than 200 are in progress, or ends one, and tells how many there are.
fn calls(heap: &mut Heap, word: &str) -> Result<String, NoMemory> {
    let alloc = heap.allocator();
    match word {
        "begin_call" if heap.calls() < 200 => heap.begin_call(),
        "end_call" => heap.end_call(),
        _ => {}
    }
    show_size(alloc, heap.calls())
}
