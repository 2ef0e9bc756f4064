// The entries of structs, read raw from Lua's tables.

ghost use Rattle.std.specs.Prelude.{◌≡◌, IfOk};
ghost use Rattle.lua_table.specs.Heap.{table_at, found_text};
ghost use Rattle.lua_table.specs.Metatables.{value_under};
ghost use Rattle.lua_table.specs.Pairs.{value_at};
ghost use Rattle.check_model.specs.Layouts as models;

use lua_table::Heap;
use lua_value::{Number, Value};
use terra_types::Entry;
use tl_base::{List, NoMemory, TableId};

/// What stands under a text of a table.
fn under(heap: &Heap, table: TableId, name: &[u8]) -> Value
    ensures { result ≡ value_under heap.now table (found_text heap.now name.now) }
{
    match heap.find(name) {
        Some(text) => heap.get(table, Value::Text(text)),
        None => Value::Nil,
    }
}

/// What stands under a number of a table. No memory has a table with so many values that its last number isn't one of Lua's.
fn numbered(heap: &Heap, table: TableId, number: u64) -> Result<Value, NoMemory>
    ensures { IfOk result (λ value. value ≡ value_at (table_at heap.now table) number) }
{
    if number > i64::MAX as u64 {
        return Err(NoMemory);
    }
    match Number::new(number as i64) {
        Some(number) => Ok(heap.get(table, Value::Number(number))),
        None => Err(NoMemory),
    }
}

/// An entry of a name and a type.
fn entry_of(field: Value, of: Value) -> Option<Entry>
    ensures { result ≡ models.entry_of field of }
{
    match field {
        Value::Text(field) => match of {
            Value::TerraType(of) => Some(Entry { field, of }),
            _ => None,
        },
        _ => None,
    }
}

/// The entry that a value is: `{field = text, type = T}` or `{text, T}`.
fn entry_in(heap: &Heap, value: Value) -> Result<Option<Entry>, NoMemory>
    ensures { IfOk result (λ entry. entry ≡ models.entry_in heap.now value) }
{
    match value {
        Value::Table(table) => {
            let named = entry_of(under(heap, table, b"field"), under(heap, table, b"type"));
            match named {
                Some(entry) => Ok(Some(entry)),
                None => {
                    let first = numbered(heap, table, 1)?;
                    let second = numbered(heap, table, 2)?;
                    Ok(entry_of(first, second))
                }
            }
        }
        _ => Ok(None),
    }
}

/// The entries that a value lists; none where it isn't a list of entries.
pub fn entries_from(heap: &Heap, value: Value) -> Result<Option<List<Entry>>, NoMemory>
    ensures { IfOk result (λ entries. entries ≡ models.entries_from heap.now value) }
{
    match value {
        Value::Table(table) => {
            let mut entries = List::new(heap.allocator());
            'entries: for place in 0..heap.border(table) {
                match entry_in(heap, numbered(heap, table, place + 1)?)? {
                    Some(entry) => entries.push(entry)?,
                    None => return Ok(None),
                }
            }
            Ok(Some(entries))
        }
        _ => Ok(None),
    }
}
