// The symbols of exports.

ghost use Rattle.std.specs.Prelude.{◌≡◌, ◌++◌, IfOk, OnOk};
ghost use Rattle.terra_meaning.specs.Values.{form_at};
ghost use Rattle.terra_term.specs.Stores.{contents_of};
ghost use Rattle.back_end.specs.Compiled.{AreExports, IsOutward, codes_of, integer_code, type_code};
ghost use Rattle.back_end.specs.Symbols.{start_among, symbol_of, symbols_of};

use elf_image::Symbol;
use indexmap::IndexSet;
use std::alloc::Global;
use terra_eval::nodes::callable_of;
use terra_term::{Export, Store, TypedName};
use terra_types::{Integer, TypeForm, Types};
use tl_base::{Bytes, FnId, NoMemory, TypeId};

/// The type code of an integer type.
fn integer_code(integer: Integer) -> u8
    ensures { result ≡ integer_code integer }
{
    match integer {
        Integer::Int8 => 1,
        Integer::Int16 => 2,
        Integer::Int32 => 3,
        Integer::Int64 => 4,
        Integer::Uint8 => 5,
        Integer::Uint16 => 6,
        Integer::Uint32 => 7,
        Integer::Uint64 => 8,
    }
}

/// The type code of a type.
fn type_code(types: &Types, t: TypeId) -> u8
    ensures { result ≡ type_code (form_at types.now t) }
{
    match types.form(t) {
        Some(TypeForm::Integer(integer)) => integer_code(*integer),
        Some(TypeForm::Bool) => 9,
        Some(TypeForm::Unit) => 0,
        Some(TypeForm::Pointer(_)) => 10,
        Some(TypeForm::Array(_, _)) => 0,
        Some(TypeForm::Function(_, _)) => 0,
        Some(TypeForm::Struct(_, _, _)) => 0,
        None => 0,
    }
}

/// The type codes of parameters.
fn push_codes(codes: &mut Vec<u8>, types: &Types, names: &[TypedName]) -> Result<(), NoMemory>
    ensures { OnOk result (codes.new.items ≡ codes.old.items ++ codes_of types.now names.now) }
{
    for name in names {
        codes.push(type_code(types, name.of))?;
    }
    Ok(())
}

/// Where a function begins that is one of these.
pub fn start_of(ids: &IndexSet<FnId>, starts: &[u64], f: FnId) -> u64
    ensures { result ≡ start_among ids.now.keys starts.now f }
{
    let Some(place) = ids.get_index_of(&f) else {
        return 0;
    };
    match starts.get(place) {
        Some(start) => *start,
        None => 0,
    }
}

/// The symbol of an export whose function begins at an address.
pub fn symbol_of(alloc: Global, store: &Store, at: u64, export: &Export) -> Result<Symbol, NoMemory>
    requires { IsOutward (contents_of store.now) export.now.function }
    ensures { IfOk result (λ symbol. symbol ≡ symbol_of (contents_of store.now) at export.now) }
{
    let Some(function) = callable_of(store, export.function) else {
        unreachable!()
    };
    let mut name = Vec::new(alloc);
    name.extend_from_slice(export.name.bytes())?;
    let mut params = Vec::new(alloc);
    push_codes(&mut params, store.types(), function.parameters)?;
    Ok(Symbol {
        name: Bytes::from_vec(name),
        address: at,
        params: Bytes::from_vec(params),
        result: type_code(store.types(), function.result),
    })
}

/// The symbols of exports whose functions are among these, by where they begin.
pub fn push_symbols(
    symbols: &mut Vec<Symbol>,
    alloc: Global,
    store: &Store,
    ids: &IndexSet<FnId>,
    starts: &[u64],
    exports: &[Export],
) -> Result<(), NoMemory>
    requires { AreExports (contents_of store.now) exports.now }
    ensures { OnOk result
        (symbols.new.items ≡ symbols.old.items ++ symbols_of (contents_of store.now) ids.now.keys starts.now exports.now) }
{
    for export in exports {
        let at = start_of(ids, starts, export.function);
        symbols.push(symbol_of(alloc, store, at, export)?)?;
    }
    Ok(())
}
