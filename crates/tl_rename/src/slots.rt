// The binders of all uses.
ghost use Rattle.std.specs.Prelude.{◌≡◌, ℕ, Some, None, IfOk, get_or, option_map};
ghost use Rattle.tl_base.specs.declared.ids.NodeId as ids;
ghost use Rattle.tl_tree.specs.Arena.{items_of};
ghost use Rattle.tl_tree.specs.Scopes as scopes;

use crate::index::new_index;
use crate::search::binder;
use crate::standing::{count_to, declared, standing_of};
use std::alloc::Global;
use std::marker::Model;
use tl_base::{NoMemory, NodeId};
use tl_tree::{Binder, Tree};

/// What each use of a local finds, by its node. Contracts see the list.
#[derive(Drop)]
pub struct Slots {
    binders: Vec<Option<Binder>>,
}

impl Model for Slots {
    ghost use Rattle.std.specs.Prelude.{List, Option};
    ghost use Rattle.tl_tree.specs.declared.scope.Binder.{Binder};

    ghost Value = { List (Option Binder) };

    ghost view = { λ s. s.binders.items };
}

impl Slots {
    /// The declaration that a use of a local finds: by how many owners to go outwards, at which position there, and in which node. `None`
    /// exactly where the node is no use of a local. It takes no memory, and is one read of a vector.
    pub fn binder(&self, n: NodeId) -> Option<Binder>
        ensures { result ≡ get_or self.now n.0 None }
    {
        if n.0 < self.binders.len() as u64 {
            self.binders[n.0 as usize]
        } else {
            None
        }
    }

    /// How many owners to go outwards, and the position among the owner's declarations, from 0. `None` exactly where the node is no use of
    /// a local.
    pub fn path(&self, n: NodeId) -> Option<(u32, u32)>
        ensures { result ≡ option_map (λ b. (b.depth, b.position)) (get_or self.now n.0 None) }
    {
        match self.binder(n) {
            Some(found) => Some((found.depth, found.position)),
            None => None,
        }
    }
}

/// Finds the declaration of each use of a local, by the scopes of the text (Lua 5.1 manual, section 2.6).
///
/// # Errors
///
/// `NoMemory` where memory was not found.
pub fn resolve(alloc: Global, tree: &Tree) -> Result<Slots, NoMemory>
    ensures { IfOk result (λ slots. (n : ids.NodeId) → get_or slots n.0 None ≡ scopes.binder (items_of tree.now) n) }
{
    let standing = standing_of(alloc, tree)?;
    let declared = declared(alloc, tree)?;
    let len = count_to(tree.root())?;
    let mut index = new_index(alloc, tree, len)?;
    let mut binders = Vec::new(alloc);
    for k in 0..len {
        let found = binder(&mut index, tree, &standing, &declared, NodeId(k))?;
        binders.push(found)?;
    }
    Ok(Slots { binders })
}
