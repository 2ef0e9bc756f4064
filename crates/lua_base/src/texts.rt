// The texts of values.

ghost use Rattle.std.specs.Prelude.{◌≡◌, ◌++◌, OnOk};
ghost use Rattle.lua_base.specs.Texts.{named, numbered, value_text};

use lua_table::Heap;
use lua_value::Value;
use tl_base::{Bytes, NoMemory};

/// Puts the text of a value behind a line: that of a text is its bytes, and that of what has none is its kind, and its number among those
/// of its kind, from 1. A function of the library, and a primitive of Terra, has its name in place of the number. What has a text of its
/// own that stands elsewhere, as a type, isn't asked about here.
pub fn push_text(heap: &Heap, line: &mut Bytes, value: Value) -> Result<(), NoMemory>
    ensures { OnOk result (line.new ≡ line.old ++ value_text heap.now value) }
{
    match value {
        Value::Nil => line.push_all(b"nil"),
        Value::Boolean(true) => line.push_all(b"true"),
        Value::Boolean(false) => line.push_all(b"false"),
        Value::Number(number) => {
            let number = number.get();
            let text = format!(in heap.allocator(); "{number}")?;
            line.push_all(text.as_bytes())
        }
        Value::Text(text) => line.push_all(heap.text(text)),
        Value::Library(function) => push_named(heap, line, value, function.name()),
        Value::Table(id) => push_numbered(heap, line, value, id.0),
        Value::Closure(id) => push_numbered(heap, line, value, id.0),
        Value::TerraFunction(id) => push_numbered(heap, line, value, id.0),
        Value::TerraType(id) => push_numbered(heap, line, value, id.0),
        Value::Quote(id) => push_numbered(heap, line, value, id.0),
        Value::Symbol(id) => push_numbered(heap, line, value, id.0),
        Value::Macro(id) => push_numbered(heap, line, value, id.0),
        Value::Global(id) => push_numbered(heap, line, value, id.0),
        Value::Constant(id) => push_numbered(heap, line, value, id.0),
        Value::Primitive(primitive) => push_named(heap, line, value, primitive.name()),
    }
}

/// Puts the kind of a value behind a line, and a name.
fn push_named(
    heap: &Heap,
    line: &mut Bytes,
    value: Value,
    name: &'static str,
) -> Result<(), NoMemory>
    ensures { OnOk result (line.new ≡ line.old ++ named value name.now) }
{
    let kind = value.kind().name();
    let text = format!(in heap.allocator(); "{kind}: {name}")?;
    line.push_all(text.as_bytes())
}

/// Puts the kind of a value behind a line, and a number from 1.
fn push_numbered(heap: &Heap, line: &mut Bytes, value: Value, id: u64) -> Result<(), NoMemory>
    ensures { OnOk result (line.new ≡ line.old ++ numbered value id) }
{
    let kind = value.kind().name();
    let number = u128::from(id) + 1;
    let text = format!(in heap.allocator(); "{kind}: {number}")?;
    line.push_all(text.as_bytes())
}
