// Names found without a walk over what an owner declares.
ghost use Rattle.std.specs.Prelude.{◌≡◌, ◌<◌, ◌≤◌, suc, true, OnOk, IfOk, length, get_or};
ghost use Rattle.tl_tree.specs.Arena.{items_of};
ghost use Rattle.tl_tree.specs.Nodes.{item_at, item_of};
ghost use Rattle.tl_tree.specs.Scopes as scopes;
ghost use Rattle.tl_rename.specs.Latest.{IsIndexed};

use crate::latest::Latest;
use std::alloc::Global;
use tl_base::{NoMemory, NodeId};
use tl_tree::{Binder, Node, Scope, Tree};

/// The last declarations of each owner by their names, and by the owner's number how many of its declarations were read.
#[derive(Drop)]
pub struct Index<'a> {
    latest: Latest<'a>,
    reached: Vec<u64>,
}

/// Of so many nodes none is read.
pub fn new_index<'a>(alloc: Global, tree: &Tree<'a>, len: u64) -> Result<Index<'a>, NoMemory>
    ensures { IfOk result (λ index. IsIndexed (items_of tree.now) index.latest index.reached.items) }
{
    let mut reached = Vec::new(alloc);
    for _node in 0..len {
        reached.push(0)?;
    }
    let _root = tree.root();
    Ok(Index {
        latest: Latest::new(alloc),
        reached,
    })
}

/// The name that a node declares.
fn declared_name<'a>(tree: &Tree<'a>, declaration: NodeId) -> &'a str
    ensures { result.now ≡ scopes.declared_name (item_at (items_of tree.now) declaration) }
{
    match tree.node(declaration) {
        Node::Name(_, _, text) => *text,
        _ => "self",
    }
}

/// Reads one more of the declarations of an owner that are in scope.
fn read_next<'a>(
    index: &mut Index<'a>,
    tree: &Tree<'a>,
    scope: Scope,
    declared: &[NodeId],
) -> Result<(), NoMemory>
    requires declared { declared.now ≡ scopes.declared_in (items_of tree.now) scope }
    requires indexed { IsIndexed (items_of tree.now) index.old.latest index.old.reached.items }
    requires owner { scope.owner.0 < length index.old.reached.items }
    requires more { get_or index.old.reached.items scope.owner.0 0 < length declared.now }
    ensures indexed { OnOk result (IsIndexed (items_of tree.now) index.new.latest index.new.reached.items) }
    ensures reached { OnOk result (get_or index.new.reached.items scope.owner.0 0 ≡ suc (get_or index.old.reached.items scope.owner.0 0)) }
    ensures len { OnOk result (length index.new.reached.items ≡ length index.old.reached.items) }
{
    let owner = scope.owner.0 as usize;
    let at = index.reached[owner];
    let declaration = declared[at as usize];
    let Ok(position) = u32::try_from(at) else {
        return Err(NoMemory);
    };
    let found = Binder {
        depth: 0,
        position,
        declaration,
    };
    index
        .latest
        .put(scope.owner.0, declared_name(tree, declaration), found)?;
    index.reached[owner] = at + 1;
    Ok(())
}

/// Reads all declarations of an owner that are in scope, where no more are read.
fn read_all<'a>(
    index: &mut Index<'a>,
    tree: &Tree<'a>,
    scope: Scope,
    declared: &[NodeId],
) -> Result<(), NoMemory>
    requires declared { declared.now ≡ scopes.declared_in (items_of tree.now) scope }
    requires indexed { IsIndexed (items_of tree.now) index.old.latest index.old.reached.items }
    requires owner { scope.owner.0 < length index.old.reached.items }
    requires before { get_or index.old.reached.items scope.owner.0 0 ≤ length declared.now }
    ensures indexed { OnOk result (IsIndexed (items_of tree.now) index.new.latest index.new.reached.items) }
    ensures reached { OnOk result (get_or index.new.reached.items scope.owner.0 0 ≡ length declared.now) }
{
    while index.reached[scope.owner.0 as usize] < declared.len() as u64 {
        read_next(index, tree, scope, declared)?;
    }
    Ok(())
}

/// The last of the declarations in scope that has the name, where no more of the owner's declarations are read than are in scope.
pub fn latest_found<'a>(
    index: &mut Index<'a>,
    tree: &Tree<'a>,
    name: &'a str,
    depth: u32,
    scope: Scope,
    declared: &[NodeId],
) -> Result<Option<Binder>, NoMemory>
    requires declared { declared.now ≡ scopes.declared_in (items_of tree.now) scope }
    requires indexed { IsIndexed (items_of tree.now) index.old.latest index.old.reached.items }
    requires owner { scope.owner.0 < length index.old.reached.items }
    requires before { get_or index.old.reached.items scope.owner.0 0 ≤ length declared.now }
    ensures found { IfOk result (λ found. found ≡ scopes.last_found (scopes.has_name (items_of tree.now) name.now) depth 0 declared.now) }
    ensures indexed { OnOk result (IsIndexed (items_of tree.now) index.new.latest index.new.reached.items) }
{
    read_all(index, tree, scope, declared)?;
    match index.latest.get(scope.owner.0, name) {
        Some(found) => Ok(Some(Binder {
            depth,
            position: found.position,
            declaration: found.declaration,
        })),
        None => Ok(None),
    }
}

/// Is the owner known, and are no more than so many of its declarations read?
pub fn is_read_up_to(index: &Index, owner: NodeId, count: usize) -> bool
    ensures { result ≡ true → (owner.0 < length index.now.reached.items) × (get_or index.now.reached.items owner.0 0 ≤ count) }
{
    owner.0 < index.reached.len() as u64 && index.reached[owner.0 as usize] <= count as u64
}
