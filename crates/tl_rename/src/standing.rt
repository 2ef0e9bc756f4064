// Where each node stands.
ghost use Rattle.std.specs.Prelude.{◌≡◌, ◌∷◌, ◌++◌, ◌+◌, [], suc, OnOk, IfOk, length, flat_map};
ghost use Rattle.tl_tree.specs.Arena.{items_of};
ghost use Rattle.tl_tree.specs.Nodes.{last_of};
ghost use Rattle.tl_tree.specs.Scopes as scopes;
ghost use Rattle.tl_rename.specs.Lists.{within_of};
ghost use Rattle.tl_rename.specs.Counted.{declared_below};

use crate::within::{Inside, push_declared, sees_itself};
use std::alloc::Global;
use std::marker::Model;
use tl_base::{NoMemory, NodeId};
use tl_tree::{NodeList, Scope, Tree};

/// How many nodes there are up to this one.
pub fn count_to(n: NodeId) -> Result<u64, NoMemory>
    ensures { IfOk result (λ count. count ≡ suc n.0) }
{
    match n.0.checked_add(1) {
        Some(count) => Ok(count),
        None => Err(NoMemory),
    }
}

/// Where nodes stand, by their numbers. Contracts see the list.
#[derive(Drop)]
pub struct Standing {
    scopes: Vec<Option<Scope>>,
}

impl Model for Standing {
    ghost use Rattle.std.specs.Prelude.{List, Option};
    ghost use Rattle.tl_tree.specs.declared.scope.Scope.{Scope};

    ghost Value = { List (Option Scope) };

    ghost view = { λ s. s.scopes.items };
}

impl Standing {
    /// Where the root stands, and none of the others yet.
    fn at_first(alloc: Global, root: NodeId) -> Result<Standing, NoMemory>
        ensures { IfOk result (λ s. s ≡ scopes.standing_at_first root) }
    {
        let len = count_to(root)?;
        let mut scopes = Vec::new(alloc);
        for _node in 0..root.0 {
            scopes.push(None)?;
        }
        scopes.push(Some(Scope {
            owner: NodeId(len),
            count: 0,
        }))?;
        Ok(Standing { scopes })
    }

    /// How many nodes there are.
    pub fn len(&self) -> usize
        ensures { result ≡ length self.now }
    {
        self.scopes.len()
    }

    /// Where a node stands, if it does.
    pub fn scope(&self, n: NodeId) -> Option<Scope>
        ensures { result ≡ scopes.scope_in self.now n.0 }
    {
        if n.0 < self.scopes.len() as u64 {
            self.scopes[n.0 as usize]
        } else {
            None
        }
    }
}

/// Says where a node below a number stands.
fn give(standing: &mut Standing, limit: NodeId, n: NodeId, scope: Scope)
    ensures { standing.new ≡ scopes.give limit.0 standing.old (record { node = n; scope = scope } ∷ []) }
{
    if n.0 < limit.0 && n.0 < standing.scopes.len() as u64 {
        standing.scopes[n.0 as usize] = Some(scope);
    }
}

/// Says of nodes below a number that they stand in one scope.
fn give_all(standing: &mut Standing, limit: NodeId, scope: Scope, ns: &[NodeId])
    ensures { standing.new ≡ scopes.give limit.0 standing.old (scopes.all_in scope ns.now) }
{
    for n in ns {
        give(standing, limit, *n, scope);
    }
}

/// How many names a statement declares; `list` is memory to be used again.
fn declared_count(list: &mut NodeList, tree: &Tree, n: NodeId) -> Result<u64, NoMemory>
    ensures { IfOk result (λ count. count ≡ length (scopes.declared_at (items_of tree.now) n)) }
{
    list.clear();
    push_declared(list, tree, n)?;
    Ok(list.len() as u64)
}

/// Says where the statements of an owner stand that has declared so many names before them. The answer is how many it declares with them.
fn give_in_order(
    standing: &mut Standing,
    list: &mut NodeList,
    tree: &Tree,
    owner: NodeId,
    before: u64,
    statements: &[NodeId],
) -> Result<u64, NoMemory>
    ensures given { OnOk result
        (standing.new ≡ scopes.give owner.0 standing.old (scopes.in_order (items_of tree.now) owner before statements.now)) }
    ensures count { IfOk result (λ all. all ≡ before + length (flat_map (scopes.declared_at (items_of tree.now)) statements.now)) }
{
    let mut count = before;
    for n in statements {
        let declared = declared_count(list, tree, *n)?;
        let Some(after) = count.checked_add(declared) else {
            return Err(NoMemory);
        };
        let seen = if sees_itself(tree, *n) { after } else { count };
        give(standing, owner, *n, Scope { owner, count: seen });
        count = after;
    }
    Ok(count)
}

/// Says where what is within a node stands.
fn give_parts(
    standing: &mut Standing,
    list: &mut NodeList,
    tree: &Tree,
    inside: &Inside,
    n: NodeId,
    scope: Scope,
) -> Result<(), NoMemory>
    ensures { OnOk result
        (standing.new ≡ scopes.give n.0 standing.old (scopes.parts_of (items_of tree.now) n scope (within_of inside.now))) }
{
    give_all(standing, n, scope, inside.around.as_slice());
    let before = inside.names.len() as u64;
    let all = give_in_order(
        standing,
        list,
        tree,
        n,
        before,
        inside.statements.as_slice(),
    )?;
    let behind = Scope {
        owner: n,
        count: all,
    };
    give_all(standing, n, behind, inside.behind.as_slice());
    Ok(())
}

/// Where each node stands.
pub fn standing_of(alloc: Global, tree: &Tree) -> Result<Standing, NoMemory>
    ensures { IfOk result (λ s. s ≡ scopes.standing_of (items_of tree.now)) }
{
    let root = tree.root();
    let mut standing = Standing::at_first(alloc, root)?;
    let mut list = NodeList::new(alloc);
    let mut inside = Inside::new(alloc);
    let mut k = count_to(root)?;
    while k > 0 {
        k -= 1;
        let n = NodeId(k);
        if let Some(scope) = standing.scope(n) {
            inside.read(tree, n)?;
            give_parts(&mut standing, &mut list, tree, &inside, n, scope)?;
        }
    }
    Ok(standing)
}

/// All that a node declares, in order of the text.
fn declarations(alloc: Global, tree: &Tree, inside: &Inside) -> Result<NodeList, NoMemory>
    ensures { IfOk result (λ ids. ids ≡ scopes.all_declared (items_of tree.now) (within_of inside.now)) }
{
    let mut list = NodeList::new(alloc);
    list.push_all(inside.names.as_slice())?;
    for n in inside.statements.as_slice() {
        push_declared(&mut list, tree, *n)?;
    }
    Ok(list)
}

/// What each node declares, by its number.
pub fn declared(alloc: Global, tree: &Tree) -> Result<Vec<NodeList>, NoMemory>
    ensures { IfOk result (λ v. v.items ≡ declared_below (items_of tree.now) (suc (last_of (items_of tree.now)).0)) }
{
    let len = count_to(tree.root())?;
    let mut inside = Inside::new(alloc);
    let mut declared = Vec::new(alloc);
    for k in 0..len {
        inside.read(tree, NodeId(k))?;
        declared.push(declarations(alloc, tree, &inside)?)?;
    }
    Ok(declared)
}
