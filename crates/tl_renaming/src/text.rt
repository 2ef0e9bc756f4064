// The text with new names.
ghost use Rattle.std.specs.Prelude.{◌≡◌, ◌++◌, ℕ, None, IfOk, OnOk, get_or, decimal};
ghost use Rattle.tl_tree.specs.Arena.{items_of};
ghost use Rattle.tl_tree.specs.Nodes.{item_of};
ghost use Rattle.tl_renaming.specs.Renamed.{bytes_between, renamed, letters, prefix as prefix_of};
ghost use Rattle.tl_renaming.specs.Passes.{number_in, written, goes_on, AreNumbers, AreBinders};

use crate::declarations::{count_nodes, declaration_numbers};
use crate::prefix::letters;
use std::alloc::Global;
use tl_base::{Bytes, NoMemory, NodeId};
use tl_rename::{Slots, resolve};
use tl_tree::{Node, Tree};

/// What the names of locals become.
#[derive(Drop)]
struct NewNames {
    /// What each use finds.
    slots: Slots,
    /// The numbers of declarations, by their nodes.
    numbers: Vec<Option<u64>>,
    /// What stands before a number.
    prefix: Vec<u8>,
}

/// The new names of a tree.
fn new_names(alloc: Global, tree: &Tree) -> Result<NewNames, NoMemory>
    ensures binders { IfOk result (λ it. AreBinders (items_of tree.now) it.slots) }
    ensures numbers { IfOk result (λ it. AreNumbers (items_of tree.now) it.numbers.items) }
    ensures prefix { IfOk result (λ it. it.prefix.items ≡ prefix_of (letters (items_of tree.now))) }
{
    let slots = resolve(alloc, tree)?;
    let numbers = declaration_numbers(alloc, tree)?;
    let letters = letters(alloc, tree)?;
    let prefix = vec![in alloc; b'v'; letters]?;
    Ok(NewNames {
        slots,
        numbers,
        prefix,
    })
}

impl NewNames {
    /// The number of a declaration, by its node.
    fn number(&self, n: NodeId) -> Option<u64>
        ensures { result ≡ get_or self.now.numbers.items n.0 None }
    {
        if n.0 < self.numbers.len() as u64 {
            self.numbers[n.0 as usize]
        } else {
            None
        }
    }

    /// The number of the local that a node declares, or else is a use of.
    fn local_number(&self, n: NodeId) -> Option<u64>
        ensures { result ≡ number_in self.now.numbers.items self.now.slots n.0 }
    {
        if let Some(number) = self.number(n) {
            return Some(number);
        }
        match self.slots.binder(n) {
            Some(found) => self.number(found.declaration),
            None => None,
        }
    }
}

/// The bytes of a text from one offset up to another, as far as it has them.
fn bytes_between(text: &[u8], from: usize, to: usize) -> &[u8]
    ensures { result.now ≡ bytes_between text.now from to }
{
    if from >= text.len() || to <= from {
        return &[];
    }
    if to < text.len() {
        &text[from..to]
    } else {
        &text[from..]
    }
}

/// Writes the new name with a number.
fn push_name(alloc: Global, out: &mut Bytes, prefix: &[u8], number: u64) -> Result<(), NoMemory>
    ensures { OnOk result (out.new ≡ out.old ++ prefix.now ++ decimal number) }
{
    let digits = format!(in alloc; "{number}")?;
    out.push_all(prefix)?;
    out.push_all(digits.as_bytes())
}

/// Writes the text up to a name, and the new name behind it, where the node is a name of a local. The answer is the offset at which the text
/// goes on.
fn push_node(
    alloc: Global,
    out: &mut Bytes,
    names: &NewNames,
    node: &Node,
    n: NodeId,
    text: &[u8],
    at: usize,
) -> Result<usize, NoMemory>
    ensures written { OnOk result ((letters : ℕ) → names.now.prefix.items ≡ prefix_of letters →
        out.new ≡ out.old ++ written (number_in names.now.numbers.items names.now.slots n.0) letters text.now at (item_of node.now)) }
    ensures next { IfOk result (λ next. next ≡ goes_on (number_in names.now.numbers.items names.now.slots n.0) at (item_of node.now)) }
{
    let Node::Name(_, offset, name) = node else {
        return Ok(at);
    };
    let Some(number) = names.local_number(n) else {
        return Ok(at);
    };
    let offset = *offset as usize;
    let next = offset + name.len();
    out.push_all(bytes_between(text, at, offset))?;
    push_name(alloc, out, &names.prefix, number)?;
    Ok(next)
}

/// A text whose tree this is, with its locals renamed: names of local variables, functions and structs, of parameters and of loop variables
/// become `v1`, `v2` and so on, in order of their declarations in the text, and so do their uses (Lua 5.1 manual, sections 2.4 and 2.6).
/// Where the text has a name that is `v` and digits, the new names begin with `vv`, and so on. All other bytes stay.
///
/// # Errors
///
/// `NoMemory` where memory was not found.
pub fn renamed(alloc: Global, tree: &Tree, text: &[u8]) -> Result<Bytes, NoMemory>
    ensures { IfOk result (λ bytes. bytes ≡ renamed (items_of tree.now) text.now) }
{
    let count = count_nodes(tree)?;
    let names = new_names(alloc, tree)?;
    let mut out = Bytes::new(alloc);
    let mut at = 0;
    for k in 0..count {
        let n = NodeId(k as u64);
        at = push_node(alloc, &mut out, &names, tree.node(n), n, text, at)?;
    }
    out.push_all(bytes_between(text, at, text.len()))?;
    Ok(out)
}
