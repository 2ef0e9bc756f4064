// The globals of Terra with which a source begins, behind those of Lua.

ghost use Rattle.std.specs.Prelude.{◌≡◌, ◌≤◌, length, IfOk, OnOk};
ghost use Rattle.tl_base.specs.declared.text.TheConstants.Text.{MAX_LEN};
ghost use Rattle.terra_lib.specs.Opening.{opening, with_terra, with_types, with_type, with_library, with_list_methods, terralib};
ghost use Rattle.terra_lib.specs.Opening.{type_makers};
ghost use Rattle.lua_base.specs.Opening.{globals};

use crate::lists::LIST_METHODS;
use lua_base::globals::{name, name_functions};
use lua_table::Heap;
use lua_value::{LibFn, Primitive, Value};
use std::alloc::Global;
use tl_base::{NoMemory, TableId, TypeId};

/// The table of globals, which is made first.
const GLOBALS: TableId = TableId(0);

/// The table `terralib`, which is made as the fourth.
const TERRALIB: TableId = TableId(3);

/// The table of the functions that make types, which is made as the fifth.
const TYPE_MAKERS: TableId = TableId(4);

/// The heap with which a source begins: the globals of Lua, and behind them the types by their names, `symbol`, `macro`, `global`,
/// `constant`, `sizeof` and `terralib`.
pub fn opening(alloc: Global) -> Result<Heap, NoMemory>
    ensures { IfOk result (λ heap. heap ≡ opening) }
{
    let mut heap = lua_base::opening(alloc)?;
    name_terra(&mut heap)?;
    Ok(heap)
}

#[tactic(auto, unfolding(crate::specs::Opening::with_terra))]
fn name_terra(heap: &mut Heap) -> Result<(), NoMemory>
    ensures { OnOk result (heap.new ≡ with_terra heap.old) }
{
    heap.new_table()?;
    heap.new_table()?;
    heap.new_table()?;
    name_types(heap)?;
    name_functions(
        heap,
        GLOBALS,
        &[
            LibFn::Symbol,
            LibFn::Macro,
            LibFn::Global,
            LibFn::Constant,
            LibFn::SizeOf,
        ],
    )?;
    name(heap, GLOBALS, b"terralib", Value::Table(TERRALIB))?;
    name_library(heap)?;
    name_functions(
        heap,
        TYPE_MAKERS,
        &[LibFn::NewStruct, LibFn::Pointer, LibFn::Array],
    )?;
    name_list_methods(heap)
}

#[tactic(auto, unfolding(crate::specs::Opening::with_types))]
/// The integer types, by their two names each where they have two; bool, and the type of texts.
fn name_types(heap: &mut Heap) -> Result<(), NoMemory>
    ensures { OnOk result (heap.new ≡ with_types heap.old) }
{
    name_type(heap, b"int8", 0)?;
    name_type(heap, b"int16", 1)?;
    name_type(heap, b"int32", 2)?;
    name_type(heap, b"int64", 3)?;
    name_type(heap, b"uint8", 4)?;
    name_type(heap, b"uint16", 5)?;
    name_type(heap, b"uint32", 6)?;
    name_type(heap, b"uint64", 7)?;
    name_type(heap, b"int", 2)?;
    name_type(heap, b"uint", 6)?;
    name_type(heap, b"intptr", 7)?;
    name_type(heap, b"ptrdiff", 3)?;
    name_type(heap, b"bool", 8)?;
    name_type(heap, b"rawstring", 10)
}

fn name_type(heap: &mut Heap, text: &[u8], number: u64) -> Result<(), NoMemory>
    requires { length text.now ≤ MAX_LEN }
    ensures { OnOk result (heap.new ≡ with_type heap.old text.now number) }
{
    name(heap, GLOBALS, text, Value::TerraType(TypeId(number)))
}

#[tactic(auto, unfolding(crate::specs::Opening::with_library))]
/// What stands in `terralib`.
fn name_library(heap: &mut Heap) -> Result<(), NoMemory>
    ensures { OnOk result (heap.new ≡ with_library heap.old) }
{
    name_functions(
        heap,
        TERRALIB,
        &[LibFn::Type, LibFn::SizeOf, LibFn::OffsetOf, LibFn::NewList],
    )?;
    name(heap, TERRALIB, b"types", Value::Table(TYPE_MAKERS))?;
    name_functions(heap, TERRALIB, &[LibFn::SaveObj])?;
    name(
        heap,
        TERRALIB,
        b"putbyte",
        Value::Primitive(Primitive::PutByte),
    )?;
    name(heap, TERRALIB, b"write", Value::Primitive(Primitive::Write))?;
    name(heap, TERRALIB, b"alloc", Value::Primitive(Primitive::Alloc))
}

#[tactic(auto, unfolding(crate::specs::Opening::with_list_methods))]
/// The methods of lists.
fn name_list_methods(heap: &mut Heap) -> Result<(), NoMemory>
    ensures { OnOk result (heap.new ≡ with_list_methods heap.old) }
{
    name_functions(
        heap,
        LIST_METHODS,
        &[LibFn::Insert, LibFn::InsertAll, LibFn::Map],
    )?;
    name(heap, LIST_METHODS, b"__index", Value::Table(LIST_METHODS))
}
