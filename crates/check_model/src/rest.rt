// Lists of which items are taken while a body is typed.

ghost use Rattle.std.specs.Prelude.{◌≡◌, length, IfOk};
ghost use Rattle.check_model.specs.Rows.{IsTaken};

use std::alloc::Global;
use std::marker::Model;
use tl_base::{List, NoMemory};

/// The items of a list that are left. Contracts see these.
#[derive(Drop)]
pub struct Rest<T> {
    items: Vec<T>,
    next: usize,
}

impl<T> Model for Rest<T> {
    ghost use Rattle.std.specs.Prelude.{List, drop};

    ghost Value = { List T };

    ghost view = { λ r. drop r.next r.items.items };
}

impl<T: Copy> Rest<T> {
    /// The items that these are, all of them.
    pub fn from_vec(items: Vec<T>) -> Rest<T>
        ensures { result ≡ items.items }
    {
        Rest { items, next: 0 }
    }

    /// The items of this list, all of them.
    pub fn from_list(items: List<T>) -> Rest<T>
        ensures { result ≡ items }
    {
        Rest::from_vec(items.into_vec())
    }

    /// These items.
    pub fn copy(alloc: Global, items: &[T]) -> Result<Rest<T>, NoMemory>
        ensures { IfOk result (λ rest. rest ≡ items.now) }
    {
        Ok(Rest {
            items: Vec::from_slice(alloc, items)?,
            next: 0,
        })
    }

    /// Takes the first item.
    pub fn take(&mut self) -> Option<T>
        ensures { IsTaken self.old result self.new }
    {
        match self.items.get(self.next) {
            Some(item) => {
                let item = *item;
                self.next += 1;
                Some(item)
            }
            None => None,
        }
    }

    /// The items that are left.
    pub fn as_slice(&self) -> &[T]
        ensures { result.now ≡ self.now }
    {
        match self.items.get(self.next..) {
            Some(items) => items,
            None => &[],
        }
    }

    /// How many items are left.
    pub fn len(&self) -> usize
        ensures { result ≡ length self.now }
    {
        self.items.len().saturating_sub(self.next)
    }
}
