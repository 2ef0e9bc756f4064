// What a name finds.
ghost use Rattle.std.specs.Prelude.{◌≡◌, suc, IfOk, OnOk, length, take};
ghost use Rattle.tl_tree.specs.Arena.{items_of};
ghost use Rattle.tl_tree.specs.Nodes.{item_at, last_of};
ghost use Rattle.tl_tree.specs.Scopes as scopes;
ghost use Rattle.tl_rename.specs.Counted.{declared_below};
ghost use Rattle.tl_rename.specs.Latest.{IsIndexed};

use crate::index::{Index, is_read_up_to, latest_found};
use crate::standing::Standing;
use tl_base::{NoMemory, NodeId};
use tl_tree::{Binder, Node, NodeList, Scope, Tree};

/// So many declarations are searched one by one, which takes less time than to find one by its name.
const FEW: usize = 12;

/// Does the declaration have this name?
fn has_name(tree: &Tree, name: &str, declaration: NodeId) -> bool
    ensures { result ≡ scopes.has_name (items_of tree.now) name.now declaration }
{
    match tree.node(declaration) {
        Node::Name(_, _, text) => *text == name,
        _ => "self" == name,
    }
}

/// The last of the declarations that has the name.
fn last_found(
    tree: &Tree,
    name: &str,
    depth: u32,
    declarations: &[NodeId],
) -> Result<Option<Binder>, NoMemory>
    ensures { IfOk result (λ found. found ≡ scopes.last_found (scopes.has_name (items_of tree.now) name.now) depth 0 declarations.now) }
{
    let mut at = declarations.len();
    while at > 0 {
        at -= 1;
        let declaration = declarations[at];
        if has_name(tree, name, declaration) {
            let Ok(position) = u32::try_from(at) else {
                return Err(NoMemory);
            };
            return Ok(Some(Binder {
                depth,
                position,
                declaration,
            }));
        }
    }
    Ok(None)
}

/// The declarations of the innermost owner that are in scope.
fn declared_in<'d>(tree: &Tree, declared: &'d [NodeList], scope: Scope) -> &'d [NodeId]
    requires { declared.now ≡ declared_below (items_of tree.now) (suc (last_of (items_of tree.now)).0) }
    ensures { result.now ≡ scopes.declared_in (items_of tree.now) scope }
{
    if scope.owner.0 >= declared.len() as u64 {
        return &[];
    }
    let all = declared[scope.owner.0 as usize].as_slice();
    if scope.count < all.len() as u64 {
        &all[..scope.count as usize]
    } else {
        all
    }
}

/// The last of the declarations in scope that has the name.
fn last_in_scope<'a>(
    index: &mut Index<'a>,
    tree: &Tree<'a>,
    declared: &[NodeList],
    name: &'a str,
    depth: u32,
    scope: Scope,
) -> Result<Option<Binder>, NoMemory>
    requires declared { declared.now ≡ declared_below (items_of tree.now) (suc (last_of (items_of tree.now)).0) }
    requires indexed { IsIndexed (items_of tree.now) index.old.latest index.old.reached.items }
    ensures found { IfOk result (λ found.
        found ≡ scopes.last_found (scopes.has_name (items_of tree.now) name.now) depth 0 (scopes.declared_in (items_of tree.now) scope)) }
    ensures indexed { OnOk result (IsIndexed (items_of tree.now) index.new.latest index.new.reached.items) }
{
    let here = declared_in(tree, declared, scope);
    if here.len() > FEW && is_read_up_to(index, scope.owner, here.len()) {
        latest_found(index, tree, name, depth, scope, here)
    } else {
        last_found(tree, name, depth, here)
    }
}

/// What a name finds that stands there.
fn found_from<'a>(
    index: &mut Index<'a>,
    tree: &Tree<'a>,
    standing: &Standing,
    declared: &[NodeList],
    name: &'a str,
    scope: Option<Scope>,
) -> Result<Option<Binder>, NoMemory>
    requires declared { declared.now ≡ declared_below (items_of tree.now) (suc (last_of (items_of tree.now)).0) }
    requires indexed { IsIndexed (items_of tree.now) index.old.latest index.old.reached.items }
    ensures indexed { OnOk result (IsIndexed (items_of tree.now) index.new.latest index.new.reached.items) }
    ensures found { IfOk result (λ found. found ≡ scopes.found_from (length standing.now) (items_of tree.now) standing.now
        (scopes.has_name (items_of tree.now) name.now) 0 scope) }
{
    let mut depth: u32 = 0;
    let mut from = scope;
    let mut owners = standing.len();
    while owners > 0 {
        owners -= 1;
        let Some(here) = from else {
            return Ok(None);
        };
        let found = last_in_scope(index, tree, declared, name, depth, here)?;
        if let Some(found) = found {
            return Ok(Some(found));
        }
        from = standing.scope(here.owner);
        let Some(outwards) = depth.checked_add(1) else {
            return Err(NoMemory);
        };
        depth = outwards;
    }
    Ok(None)
}

/// Where the use of a local finds its declaration.
pub fn binder<'a>(
    index: &mut Index<'a>,
    tree: &Tree<'a>,
    standing: &Standing,
    declared: &[NodeList],
    n: NodeId,
) -> Result<Option<Binder>, NoMemory>
    requires declared { declared.now ≡ declared_below (items_of tree.now) (suc (last_of (items_of tree.now)).0) }
    requires standing { standing.now ≡ scopes.standing_of (items_of tree.now) }
    requires indexed { IsIndexed (items_of tree.now) index.old.latest index.old.reached.items }
    ensures indexed { OnOk result (IsIndexed (items_of tree.now) index.new.latest index.new.reached.items) }
    ensures found { IfOk result (λ found. found ≡ scopes.binder (items_of tree.now) n) }
{
    match tree.node(n) {
        Node::Name(_, _, text) => {
            found_from(index, tree, standing, declared, *text, standing.scope(n))
        }
        _ => Ok(None),
    }
}
