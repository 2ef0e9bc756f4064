// The entries of a struct and where they lie.

ghost use Rattle.std.specs.Prelude.{◌≡◌, ◌++◌, ◌∷◌, [], length, slice_get, not, IfOk, if◌then◌else◌};
ghost use Rattle.terra_types.specs.Layouts.{entry_named, is_laid};

use indexmap::IndexMap;
use std::alloc::Global;
use std::marker::Model;
use tl_base::{NoMemory, TextId, TypeId};

/// An entry of a struct: the field's name and its type.
#[derive(Clone, Copy, PartialEq, Eq)]
pub struct Entry {
    pub field: TextId,
    pub of: TypeId,
}

/// An entry of a struct whose layout is settled, with its offset in bytes.
#[derive(Clone, Copy, PartialEq, Eq)]
pub struct Laid {
    pub field: TextId,
    pub offset: u64,
    pub of: TypeId,
}

/// Where an entry lies, and its type.
#[derive(Clone, Copy)]
pub struct Spot {
    offset: u64,
    of: TypeId,
}

/// Entries that are laid out, in order, and found by their names. Contracts see the list.
#[derive(Drop)]
pub struct LaidList {
    spots: IndexMap<TextId, Spot>,
}

impl Model for LaidList {
    ghost use Rattle.std.specs.Prelude.{List, map};
    ghost use Rattle.terra_types.specs.declared.layout.Laid.{Laid};

    ghost Value = { List Laid };

    ghost use Rattle.terra_types.specs.Spots.{laid_of};

    ghost view = { λ l. map laid_of l.spots.entries };
}

/// The layout of a struct: its size and alignment in bytes, and its entries.
#[derive(Drop)]
pub struct Layout {
    pub size: u64,
    pub align: u64,
    pub entries: LaidList,
}

/// What settling a layout answers.
#[derive(Clone, Copy, PartialEq, Eq)]
pub enum Settled {
    /// The struct has its layout.
    Done,
    /// The entries are bad, and the struct has no layout.
    Bad,
}

impl LaidList {
    /// A list without entries.
    pub(crate) fn new(alloc: Global) -> LaidList
        ensures { result ≡ [] }
    {
        LaidList {
            spots: IndexMap::new(alloc),
        }
    }

    /// How many entries there are.
    pub fn len(&self) -> u64
        ensures { result ≡ length self.now }
    {
        self.spots.len() as u64
    }

    /// The entry at a place in the order of the list.
    pub fn get(&self, place: u64) -> Option<Laid>
        ensures { result ≡ slice_get self.now place }
    {
        let (field, spot) = self.spots.get_index(place as usize)?;
        Some(Laid {
            field: *field,
            offset: spot.offset,
            of: spot.of,
        })
    }

    /// The entry of a name, without a walk over the others.
    pub fn find(&self, field: TextId) -> Option<Laid>
        ensures { result ≡ entry_named field self.now }
    {
        match self.spots.get_key_value(&field) {
            Some((field, spot)) => Some(Laid {
                field: *field,
                offset: spot.offset,
                of: spot.of,
            }),
            None => None,
        }
    }

    /// Puts an entry behind the others. An entry whose name stands in the list isn't put there, and is answered by false.
    pub(crate) fn push(&mut self, entry: Laid) -> Result<bool, NoMemory>
        ensures new { IfOk result (λ new. new ≡ not (is_laid entry.field self.old)) }
        ensures list { IfOk result (λ new. self.new ≡ (if new then self.old ++ entry ∷ [] else self.old)) }
    {
        if self.spots.contains_key(&entry.field) {
            return Ok(false);
        }
        let spot = Spot {
            offset: entry.offset,
            of: entry.of,
        };
        self.spots.insert(entry.field, spot)?;
        Ok(true)
    }
}
