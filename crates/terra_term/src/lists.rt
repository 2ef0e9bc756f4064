// The lists within terms.

ghost use Rattle.std.specs.Prelude.{◌≡◌, IfOk};

use crate::heap_list::HeapList;
use std::alloc::Global;
use std::marker::Model;
use tl_base::{NoMemory, Place, SymId, TermId, TextId, TypeId};

/// A parameter of a definition: the symbol that it declares, its type, and the place of its declaration.
#[derive(Clone, Copy, PartialEq, Eq)]
pub struct Parameter {
    pub symbol: SymId,
    pub of: TypeId,
    pub place: Place,
}

/// A name that a `var` declares, with its type where that is written or the symbol's own.
#[derive(Clone, Copy, PartialEq, Eq)]
pub struct VarName {
    pub symbol: SymId,
    pub of: Option<TypeId>,
    pub place: Place,
}

/// The name that a `for` declares, behind one pointer. Contracts see the name.
#[derive(Drop)]
pub struct LoopName {
    name: Box<VarName>,
}

impl Model for LoopName {
    ghost use Rattle.terra_term.specs.declared.lists.VarName.{VarName};

    ghost Value = { VarName };

    ghost view = { λ n. n.name.value };
}

impl LoopName {
    /// The place of its own that this name gets.
    pub fn new(alloc: Global, name: VarName) -> Result<LoopName, NoMemory>
        ensures { IfOk result (λ n. n ≡ name) }
    {
        Ok(LoopName {
            name: Box::new(alloc, name)?,
        })
    }

    /// This name.
    pub fn name(&self) -> &VarName
        ensures { result.now ≡ self.now }
    {
        &self.name
    }
}

/// A variable with its type.
#[derive(Clone, Copy, PartialEq, Eq)]
pub struct TypedName {
    pub symbol: SymId,
    pub of: TypeId,
}

/// Nodes in order.
pub type TermList = HeapList<TermId>;

/// Names of fields in order.
pub type FieldList = HeapList<TextId>;

/// Offsets in bytes, in order.
pub type OffsetList = HeapList<u64>;

/// Parameters in order.
pub type ParameterList = HeapList<Parameter>;

/// The names of a `var` in order.
pub type VarNameList = HeapList<VarName>;

/// Variables in order.
pub type TypedNameList = HeapList<TypedName>;
