// The numbers of declarations.
ghost use Rattle.std.specs.Prelude.{◌≡◌, ◌∷◌, [], IfOk, suc, false, replicate};
ghost use Rattle.tl_tree.specs.Arena.{items_of};
ghost use Rattle.tl_tree.specs.Nodes.{item_at, item_of, last_of};
ghost use Rattle.tl_tree.specs.Scopes as scopes;
ghost use Rattle.tl_renaming.specs.Renamed as names;
ghost use Rattle.tl_renaming.specs.Passes.{marked, AreDeclarations, numbers_from, AreNumbers};

use std::alloc::Global;
use tl_base::{NoMemory, NodeId};
use tl_tree::{Node, Piece, Statement, TerraStatement, Tree};

/// How many nodes there are up to the root.
pub fn count_nodes(tree: &Tree) -> Result<usize, NoMemory>
    ensures { IfOk result (λ count. count ≡ suc (last_of (items_of tree.now)).0) }
{
    match tree.root().0.checked_add(1) {
        Some(count) => Ok(count as usize),
        None => Err(NoMemory),
    }
}

/// So many marks, none of which is set.
pub fn unmarked(alloc: Global, count: usize) -> Result<Vec<bool>, NoMemory>
    ensures { IfOk result (λ marks. marks.items ≡ replicate count false) }
{
    Ok(vec![in alloc; false; count]?)
}

/// Is the node a name?
fn is_name(tree: &Tree, n: NodeId) -> bool
    ensures { result ≡ scopes.is_name (item_at (items_of tree.now) n) }
{
    matches!(tree.node(n), Node::Name(..))
}

/// Marks a declaration, where it is a name.
fn mark(marks: &mut Vec<bool>, tree: &Tree, n: NodeId)
    ensures { marks.new.items ≡ marked (items_of tree.now) (n ∷ []) marks.old.items }
{
    if is_name(tree, n) && n.0 < marks.len() as u64 {
        marks[n.0 as usize] = true;
    }
}

/// Marks those of some declarations that are names.
fn mark_all(marks: &mut Vec<bool>, tree: &Tree, ns: &[NodeId])
    ensures { marks.new.items ≡ marked (items_of tree.now) ns.now marks.old.items }
{
    for n in ns {
        mark(marks, tree, *n);
    }
}

/// Marks what a node declares, of its own children.
fn mark_declared(marks: &mut Vec<bool>, tree: &Tree, node: &Node)
    ensures { marks.new.items ≡ marked (items_of tree.now) (names.declares (item_of node.now)) marks.old.items }
{
    match node {
        Node::Statement(_, statement) => match statement {
            Statement::GenericFor(names, _, _) | Statement::Local(names, _) => {
                mark_all(marks, tree, names.as_slice())
            }
            Statement::NumericFor(name, _, _, _, _)
            | Statement::LocalFunction(name, _)
            | Statement::LocalTerra(_, name, _)
            | Statement::LocalDeclareTerra(_, name, _)
            | Statement::LocalStruct(_, name, _) => mark(marks, tree, *name),
            _ => {}
        },
        Node::TerraStatement(_, TerraStatement::For(name, _, _, _, _)) => mark(marks, tree, *name),
        Node::Piece(Piece::Body(names, _, _)) => mark_all(marks, tree, names.as_slice()),
        Node::Piece(Piece::Parameter(_, name, _) | Piece::Variable(_, name, _)) => {
            mark(marks, tree, *name)
        }
        _ => {}
    }
}

/// Marks the declarations of a tree.
fn declarations(alloc: Global, tree: &Tree) -> Result<Vec<bool>, NoMemory>
    ensures { IfOk result (λ marks. AreDeclarations (items_of tree.now) marks.items) }
{
    let count = count_nodes(tree)?;
    let mut marks = unmarked(alloc, count)?;
    for k in 0..count {
        mark_declared(&mut marks, tree, tree.node(NodeId(k as u64)));
    }
    Ok(marks)
}

/// Numbers what is marked, from 1.
fn numbered(alloc: Global, marks: &[bool]) -> Result<Vec<Option<u64>>, NoMemory>
    ensures { IfOk result (λ numbers. numbers.items ≡ numbers_from 0 marks.now) }
{
    let mut numbers = Vec::new(alloc);
    let mut count = 0;
    for mark in marks {
        if *mark {
            count += 1;
            numbers.push(Some(count))?;
        } else {
            numbers.push(None)?;
        }
    }
    Ok(numbers)
}

/// The numbers of the declarations of a tree, in order of the text, by their nodes.
pub fn declaration_numbers(alloc: Global, tree: &Tree) -> Result<Vec<Option<u64>>, NoMemory>
    ensures { IfOk result (λ numbers. AreNumbers (items_of tree.now) numbers.items) }
{
    let marks = declarations(alloc, tree)?;
    let numbers = numbered(alloc, &marks)?;
    Ok(numbers)
}
