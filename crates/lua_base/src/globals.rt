// The globals with which a source begins.

ghost use Rattle.std.specs.Prelude.{◌≡◌, ◌≤◌, length, IfOk, OnOk};
ghost use Rattle.tl_base.specs.declared.text.TheConstants.Text.{MAX_LEN};
ghost use Rattle.lua_table.specs.Heap.{empty};
ghost use Rattle.lua_base.specs.Opening.{opening, with_functions, with_globals, with_named, bare};

use lua_table::Heap;
use lua_value::{LibFn, Value};
use std::alloc::Global;
use tl_base::{NoMemory, TableId};

/// The heap with which a source begins: the table of globals, with `_G`, `_VERSION`, the basic functions, `string` and `table` (Lua 5.1
/// manual, section 5), and the tables of the functions on texts and on tables.
pub fn opening(alloc: Global) -> Result<Heap, NoMemory>
    ensures { IfOk result (λ heap. heap ≡ opening) }
{
    let mut heap = Heap::new(alloc);
    fill(&mut heap)?;
    Ok(heap)
}

/// Makes the tables with which a source begins in a heap that has nothing, and fills them.
fn fill(heap: &mut Heap) -> Result<(), NoMemory>
    requires { heap.old ≡ empty }
    ensures { OnOk result (heap.new ≡ opening) }
{
    let globals = heap.new_table()?;
    let texts = heap.new_table()?;
    let tables = heap.new_table()?;
    name_globals(heap, globals, texts, tables)?;
    name_functions(
        heap,
        texts,
        &[
            LibFn::Byte,
            LibFn::Char,
            LibFn::Format,
            LibFn::Len,
            LibFn::Rep,
            LibFn::Sub,
        ],
    )?;
    name_functions(
        heap,
        tables,
        &[LibFn::Concat, LibFn::TableInsert, LibFn::Remove],
    )?;
    Ok(())
}

#[tactic(auto, unfolding(crate::specs::Opening::with_globals))]
/// Puts the globals in their table.
fn name_globals(
    heap: &mut Heap,
    globals: TableId,
    texts: TableId,
    tables: TableId,
) -> Result<(), NoMemory>
    ensures { OnOk result (heap.new ≡ with_globals heap.old globals texts tables) }
{
    name(heap, globals, b"_G", Value::Table(globals))?;
    let version = heap.intern(b"Lua 5.1")?;
    name(heap, globals, b"_VERSION", Value::Text(version))?;
    name_functions(
        heap,
        globals,
        &[
            LibFn::Assert,
            LibFn::Error,
            LibFn::GetMetatable,
            LibFn::Ipairs,
            LibFn::Next,
            LibFn::Pairs,
            LibFn::Pcall,
            LibFn::Print,
            LibFn::RawEqual,
            LibFn::RawGet,
            LibFn::RawSet,
            LibFn::Select,
            LibFn::SetMetatable,
            LibFn::ToNumber,
            LibFn::ToString,
            LibFn::Type,
            LibFn::Unpack,
        ],
    )?;
    name(heap, globals, b"string", Value::Table(texts))?;
    name(heap, globals, b"table", Value::Table(tables))?;
    Ok(())
}

#[tactic(auto, unfolding(crate::specs::Opening::with_functions))]
/// Puts functions under their names of a table.
pub fn name_functions(heap: &mut Heap, table: TableId, functions: &[LibFn]) -> Result<(), NoMemory>
    ensures { OnOk result (heap.new ≡ with_functions heap.old table functions.now) }
{
    for function in functions {
        name(
            heap,
            table,
            function.name().as_bytes(),
            Value::Library(*function),
        )?;
    }
    Ok(())
}

/// Puts a value under a name of a table.
pub fn name(heap: &mut Heap, table: TableId, name: &[u8], value: Value) -> Result<(), NoMemory>
    requires { length name.now ≤ MAX_LEN }
    ensures { OnOk result (heap.new ≡ with_named heap.old table name.now value) }
{
    let key = heap.intern(name)?;
    heap.store(table, Value::Text(key), value)
}
