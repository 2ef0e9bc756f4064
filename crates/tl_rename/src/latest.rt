// The last declarations of names.
ghost use Rattle.std.specs.Prelude.{◌≡◌, [], OnOk};
ghost use Rattle.indexmap.specs.IndexMap.{insert_entry};
ghost use Rattle.tl_rename.specs.Latest.{is_key, latest_in};

use indexmap::IndexMap;
use std::alloc::Global;
use std::marker::Model;
use tl_base::NoMemory;
use tl_tree::Binder;

/// By owner and name what was found last. Contracts see the entries.
#[derive(Drop)]
pub struct Latest<'a> {
    entries: IndexMap<(u64, &'a str), Binder>,
}

impl<'a> Model for Latest<'a> {
    ghost use Rattle.std.specs.Prelude.{map};
    ghost use Rattle.tl_rename.specs.Latest.{Entries};

    ghost Value = { Entries };

    ghost view = { λ l. map (λ e. ((e.0.0, e.0.1.now), e.1)) l.entries.entries };
}

impl<'a> Latest<'a> {
    /// Nothing yet.
    pub fn new(alloc: Global) -> Latest<'a>
        ensures { result ≡ [] }
    {
        Latest {
            entries: IndexMap::new(alloc),
        }
    }

    /// Puts what is found under a name, in place of what was found before.
    pub fn put(&mut self, owner: u64, name: &'a str, found: Binder) -> Result<(), NoMemory>
        ensures { OnOk result (self.new ≡ insert_entry is_key self.old (owner, name.now) found) }
    {
        self.entries.insert((owner, name), found)?;
        Ok(())
    }

    /// What is found under a name.
    pub fn get(&self, owner: u64, name: &'a str) -> Option<Binder>
        ensures { result ≡ latest_in self.now owner name.now }
    {
        match self.entries.get(&(owner, name)) {
            Some(found) => Some(*found),
            None => None,
        }
    }
}
