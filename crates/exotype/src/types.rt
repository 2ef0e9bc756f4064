// Types that Lua code makes.

ghost use Rattle.std.specs.Prelude.{◌≡◌, ◌<◌, ℕ, Some, IsTrue, IfOk, OnOk, OnErr, length, slice_get};
ghost use Rattle.tl_base.specs.declared.ids.TypeId.{TypeId};
ghost use Rattle.exotype.specs.Types.{is_type, are_types, pointer_id, with_pointer, array_id, with_array, function_id, with_function};
ghost use Rattle.exotype.specs.Types.{struct_number, is_struct, next_type, with_struct, tables_of, next_tables, with_three_tables};

use crate::kept::StructTables;
use crate::world::World;
use lua_table::Heap;
use terra_types::{TypeForm, Types};
use tl_base::{NoMemory, Place, TypeId};

impl World {
    /// The type of pointers to a type. What is no type stays what it is.
    pub fn pointer_to(&mut self, of: TypeId) -> Result<TypeId, NoMemory>
        ensures id { IfOk result (λ id. id ≡ pointer_id self.old of) }
        ensures ok { OnOk result (self.new ≡ with_pointer self.old of) }
        ensures err { OnErr result (self.new ≡ self.old) }
    {
        if is_type(self.store.types(), of) {
            self.store.types_mut().pointer_to(of)
        } else {
            Ok(of)
        }
    }

    /// The type of so many elements of a type. What is no type stays what it is.
    pub fn array_of(&mut self, of: TypeId, count: u64) -> Result<TypeId, NoMemory>
        ensures id { IfOk result (λ id. id ≡ array_id self.old of count) }
        ensures ok { OnOk result (self.new ≡ with_array self.old of count) }
        ensures err { OnErr result (self.new ≡ self.old) }
    {
        if is_type(self.store.types(), of) {
            self.store.types_mut().array_of(of, count)
        } else {
            Ok(of)
        }
    }

    /// The type of functions of these parameters and this result. Where one of them is no type, it is the result's.
    pub fn function_of(&mut self, params: &[TypeId], of: TypeId) -> Result<TypeId, NoMemory>
        ensures id { IfOk result (λ id. id ≡ function_id self.old params.now of) }
        ensures ok { OnOk result (self.new ≡ with_function self.old params.now of) }
        ensures err { OnErr result (self.new ≡ self.old) }
    {
        if is_type(self.store.types(), of) && are_types(self.store.types(), params) {
            self.store.types_mut().function_of(params, of)
        } else {
            Ok(of)
        }
    }

    /// A new struct type, made at a place, with three new empty tables: its entries, its methods and its metamethods.
    pub fn new_struct(&mut self, place: Place) -> Result<TypeId, NoMemory>
        ensures id { IfOk result (λ id. id ≡ next_type self.old) }
        ensures ok { OnOk result (self.new ≡ with_struct self.old place) }
    {
        let tables = new_tables(&mut self.heap)?;
        self.kept.keep_tables(tables)?;
        self.store.types_mut().new_struct(place)
    }

    /// Whether a type is a struct.
    pub fn is_struct(&self, of: TypeId) -> bool
        ensures { result ≡ is_struct self.now of }
    {
        struct_number(self.store.types(), of).is_some()
    }

    /// The tables of a struct.
    pub fn struct_tables(&self, of: TypeId) -> StructTables
        ensures { result ≡ tables_of self.now of }
    {
        match struct_number(self.store.types(), of) {
            Some(number) => self.kept.tables(number),
            None => self.kept.tables(0),
        }
    }
}

/// Whether a type of that id is there.
pub fn is_type(types: &Types, of: TypeId) -> bool
    ensures { result ≡ is_type types.now of }
{
    of.0 < types.len()
}

/// Whether types of all these ids are there.
fn are_types(types: &Types, ids: &[TypeId]) -> bool
    ensures all { result ≡ are_types types.now ids.now }
    ensures each { IsTrue result → (i : ℕ) (t : TypeId) → slice_get ids.now i ≡ Some t → t.0 < length types.now }
{
    all_are_types(types, ids)
}

/// The test of all these ids.
fn all_are_types(types: &Types, ids: &[TypeId]) -> bool
    ensures { result ≡ are_types types.now ids.now }
{
    ids.iter().all(|of| is_type(types, *of))
}

/// The number of a struct among structs, counted from 1; `None` where a type is no struct.
fn struct_number(types: &Types, of: TypeId) -> Option<u64>
    ensures { result ≡ struct_number types.now of }
{
    match types.form(of) {
        Some(TypeForm::Struct(number, _, _)) => Some(*number),
        _ => None,
    }
}

/// Three new empty tables, as those of a struct.
fn new_tables(heap: &mut Heap) -> Result<StructTables, NoMemory>
    ensures tables { IfOk result (λ tables. tables ≡ next_tables heap.old) }
    ensures ok { OnOk result (heap.new ≡ with_three_tables heap.old) }
{
    let entries = heap.new_table()?;
    let methods = heap.new_table()?;
    let metamethods = heap.new_table()?;
    Ok(StructTables {
        entries,
        methods,
        metamethods,
    })
}
