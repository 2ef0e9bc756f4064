// Which temporaries are read once.

ghost use Rattle.std.specs.Prelude.{◌≡◌, [], OnOk, IfOk};
ghost use Rattle.tac_copies.specs.Kept.{Notes, Told, told_once};
ghost use Rattle.tac_copies.specs.Once.{is_once};

use crate::reads::code_reads;
use indexmap::IndexMap;
use std::alloc::Global;
use std::marker::Model;
use tac_form::Tac;
use tl_base::NoMemory;

/// The temporaries that are read, each with whether it is read once. Contracts see the entries.
#[derive(Drop)]
pub(crate) struct ReadOnce {
    reads: IndexMap<u64, bool>,
}

impl Model for ReadOnce {
    ghost use Rattle.std.specs.Prelude.{ℕ, Bool, List};

    ghost Value = { List (ℕ × Bool) };

    ghost view = { λ o. o.reads.entries };
}

impl ReadOnce {
    /// Those of code.
    pub(crate) fn of(alloc: Global, code: &Tac) -> Result<ReadOnce, NoMemory>
        ensures { IfOk result (λ once. told_once once ≡ is_once code.now) }
    {
        let reads = code_reads(alloc, code)?;
        let mut once = ReadOnce::none(alloc);
        once.note_all(&reads)?;
        Ok(once)
    }

    /// Where nothing is read.
    fn none(alloc: Global) -> ReadOnce
        ensures { Told result [] }
    {
        ReadOnce {
            reads: IndexMap::new(alloc),
        }
    }

    /// With temporaries that are read, the first ones.
    fn note_all(&mut self, temps: &[u64]) -> Result<(), NoMemory>
        requires { Told self.old [] }
        ensures { OnOk result (Told self.new temps.now) }
    {
        for t in temps {
            self.note(*t)?;
        }
        Ok(())
    }

    /// With a temporary that is read, maybe once more.
    fn note(&mut self, t: u64) -> Result<(), NoMemory>
        ensures { OnOk result (Notes t self.old self.new) }
    {
        let is_first = !self.reads.contains_key(&t);
        self.reads.insert(t, is_first)?;
        Ok(())
    }

    /// Whether the temporary is read once.
    pub(crate) fn has(&self, t: u64) -> bool
        ensures { result ≡ told_once self.now t }
    {
        match self.reads.get(&t) {
            Some(once) => *once,
            None => false,
        }
    }
}
