// What is kept of types beside the store.

ghost use Rattle.std.specs.Prelude.{◌≡◌, OnOk, OnErr};
ghost use Rattle.exotype.specs.Properties.{known_of, with_known};
ghost use Rattle.exotype.specs.World.{empty_kept, tables_at, with_tables};

use crate::property::{Known, Properties, Property, begin_asking, settle_asking};
use indexmap::IndexMap;
use std::alloc::Global;
use std::marker::Model;
use tl_base::{NoMemory, TableId};

/// The Lua tables of a struct.
#[derive(Clone, Copy, PartialEq, Eq)]
pub struct StructTables {
    pub entries: TableId,
    pub methods: TableId,
    pub metamethods: TableId,
}

/// The tables of each struct, and how far the asking for each property of a type has come.
#[derive(Drop)]
pub struct Kept {
    structs: Vec<StructTables>,
    properties: Properties,
}

impl Model for Kept {
    ghost use Rattle.exotype.specs.World.{KeptState};

    ghost Value = { KeptState };

    ghost view = { λ k. record { structs = k.structs.items; properties = k.properties.entries } };
}

impl Kept {
    /// Nothing is kept yet.
    pub fn new(alloc: Global) -> Kept
        ensures { result ≡ empty_kept }
    {
        Kept {
            structs: Vec::new(alloc),
            properties: IndexMap::new(alloc),
        }
    }

    /// What is known of a property.
    pub fn known(&self, property: Property) -> Known
        ensures { result ≡ known_of self.now property }
    {
        match self.properties.get(&property) {
            Some(known) => *known,
            None => Known::Unasked,
        }
    }

    /// A property is being asked for from now on. It wasn't before.
    pub fn begin(&mut self, property: Property) -> Result<(), NoMemory>
        requires { known_of self.old property ≡ Known.Unasked }
        ensures ok { OnOk result (self.new ≡ with_known self.old property Known.Asked) }
        ensures err { OnErr result (self.new ≡ self.old) }
    {
        begin_asking(&mut self.properties, property)
    }

    /// What the asking for a property gave: its value, or its refusal. An asking that is given up as incomplete makes it unasked
    /// again. This takes no memory.
    pub fn settle(&mut self, property: Property, known: Known)
        requires { known_of self.old property ≡ Known.Asked }
        ensures { self.new ≡ with_known self.old property known }
    {
        settle_asking(&mut self.properties, &property, known);
    }

    /// The tables of the struct of that number, counted from 1.
    pub fn tables(&self, number: u64) -> StructTables
        ensures { result ≡ tables_at self.now number }
    {
        match self.structs.get(number.saturating_sub(1) as usize) {
            Some(tables) => *tables,
            None => StructTables {
                entries: TableId(0),
                methods: TableId(0),
                metamethods: TableId(0),
            },
        }
    }

    /// Keeps the tables of the next struct. After `NoMemory` nothing is changed.
    pub fn keep_tables(&mut self, tables: StructTables) -> Result<(), NoMemory>
        ensures ok { OnOk result (self.new ≡ with_tables self.old tables) }
        ensures err { OnErr result (self.new ≡ self.old) }
    {
        self.structs.push(tables)?;
        Ok(())
    }
}
