// Lists behind one pointer, so that a node that holds some stays small.

ghost use Rattle.std.specs.Prelude.{◌≡◌, IfOk};

use std::marker::Model;
use tl_base::{List, NoMemory};

/// Items in order, behind one pointer. Contracts see the list.
///
/// Terms hold lists: with a `List` in the node itself a node takes 104 bytes, and with one pointer 56.
#[derive(Drop)]
pub struct HeapList<T> {
    items: Box<List<T>>,
}

impl<T> Model for HeapList<T> {
    ghost use Rattle.std.specs.Prelude.{List};

    ghost Value = { List T };

    ghost view = { λ l. l.items.value };
}

impl<T> HeapList<T> {
    /// The list that takes over these items.
    pub fn from_vec(items: Vec<T>) -> Result<HeapList<T>, NoMemory>
    where
        T: Drop,
        ensures { IfOk result (λ l. l ≡ items.items) }
    {
        let alloc = *items.allocator();
        Ok(HeapList {
            items: Box::new(alloc, List::from_vec(items))?,
        })
    }

    /// The list that takes over this one.
    pub fn from_list(items: List<T>) -> Result<HeapList<T>, NoMemory>
    where
        T: Drop,
        ensures { IfOk result (λ l. l ≡ items) }
    {
        HeapList::from_vec(items.into_vec())
    }

    /// These items.
    pub fn as_slice(&self) -> &[T]
        ensures { result.now ≡ self.now }
    {
        self.items.as_slice()
    }
}
