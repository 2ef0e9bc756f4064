// How many letters `v` a new name begins with.
ghost use Rattle.std.specs.Prelude.{◌≡◌, ◌≤◌, IfOk, length, suc};
ghost use Rattle.std.specs.List.{list_all};
ghost use Rattle.tl_tree.specs.Arena.{items_of};
ghost use Rattle.tl_tree.specs.Nodes.{item_of, last_of};
ghost use Rattle.tl_renaming.specs.Renamed as names;
ghost use Rattle.tl_renaming.specs.Passes.{leading, taken_by, taken_by_name, AreTaken};

use crate::declarations::{count_nodes, unmarked};
use std::alloc::Global;
use tl_base::{NoMemory, NodeId};
use tl_tree::{Node, Tree};

/// How many letters `v` a name begins with.
fn leading(name: &[u8]) -> usize
    ensures leading { result ≡ leading name.now }
    ensures within { result ≤ length name.now }
{
    let mut count = 0;
    while count < name.len() && name[count] == b'v' {
        count += 1;
    }
    count
}

/// Is each of these a decimal digit?
fn all_digits(bytes: &[u8]) -> bool
    ensures { result ≡ list_all names.is_digit bytes.now }
{
    bytes.iter().all(|byte| b'0' <= *byte && *byte <= b'9')
}

/// Are these decimal digits, one at least?
fn are_digits(bytes: &[u8]) -> bool
    ensures { result ≡ names.are_digits bytes.now }
{
    bytes.len() > 0 && all_digits(bytes)
}

/// Marks the count of letters that a name takes, which is its letters `v` and then digits.
fn take_name(taken: &mut Vec<bool>, name: &[u8])
    ensures { taken.new.items ≡ taken_by_name name.now taken.old.items }
{
    let count = leading(name);
    if count < taken.len() && are_digits(&name[count..]) {
        taken[count] = true;
    }
}

/// Marks what a node takes.
fn take_node(taken: &mut Vec<bool>, node: &Node)
    ensures { taken.new.items ≡ taken_by (item_of node.now) taken.old.items }
{
    if let Node::Name(_, _, name) = node {
        take_name(taken, name.as_bytes());
    }
}

/// Marks the counts of letters that names take, up to one for each node.
fn taken_counts(alloc: Global, tree: &Tree) -> Result<Vec<bool>, NoMemory>
    ensures taken { IfOk result (λ taken. AreTaken (items_of tree.now) taken.items) }
    ensures len { IfOk result (λ taken. length taken.items ≡ suc (suc (last_of (items_of tree.now)).0)) }
{
    let count = count_nodes(tree)?;
    let Some(len) = count.checked_add(1) else {
        return Err(NoMemory);
    };
    let mut taken = unmarked(alloc, len)?;
    for k in 0..count {
        take_node(&mut taken, tree.node(NodeId(k as u64)));
    }
    Ok(taken)
}

/// The first count from 1 on that no name takes.
pub fn letters(alloc: Global, tree: &Tree) -> Result<usize, NoMemory>
    ensures { IfOk result (λ count. count ≡ names.letters (items_of tree.now)) }
{
    let taken = taken_counts(alloc, tree)?;
    let mut count = 1;
    while count < taken.len() && taken[count] {
        count += 1;
    }
    Ok(count)
}
