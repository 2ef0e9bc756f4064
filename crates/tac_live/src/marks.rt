// Sets of temporaries below a number, as a flag for each.

ghost use Rattle.std.specs.Prelude.{◌≡◌, ◌<◌, true, false, length, slice_set, replicate, IfOk};
ghost use Rattle.tac_live.specs.Sets.{at, marked, unmarked, with_written, set_before};

use std::alloc::Global;
use std::marker::Model;
use tac_form::Step;
use tl_base::NoMemory;

/// A set of temporaries below a number. Contracts see the flags.
#[derive(Drop)]
pub struct TempSet {
    items: Vec<bool>,
}

impl Model for TempSet {
    ghost use Rattle.std.specs.Prelude.{Bool, List};

    ghost Value = { List Bool };

    ghost view = { λ s. s.items.items };
}

impl TempSet {
    /// None of so many temporaries.
    pub fn empty(alloc: Global, count: usize) -> Result<TempSet, NoMemory>
        ensures { IfOk result (λ s. s ≡ replicate count false) }
    {
        Ok(TempSet {
            items: vec![in alloc; false; count]?,
        })
    }

    /// The flags.
    pub fn as_slice(&self) -> &[bool]
        ensures { result.now ≡ self.now }
    {
        &self.items
    }

    /// Whether a temporary is in.
    pub fn contains(&self, t: usize) -> bool
        requires { t < length self.now }
        ensures { result ≡ at self.now t }
    {
        self.items[t]
    }

    /// Puts a temporary in.
    pub fn insert(&mut self, t: usize)
        requires { t < length self.old }
        ensures { self.new ≡ slice_set self.old t true }
    {
        self.items[t] = true;
    }

    /// Puts temporaries in, as far as there is room.
    pub fn mark_all(&mut self, temps: &[u64])
        ensures { self.new ≡ marked temps.now self.old }
    {
        mark_all(&mut self.items, temps);
    }

    /// Puts in what a step writes.
    pub fn mark_written(&mut self, write: Option<u64>)
        ensures { self.new ≡ with_written write self.old }
    {
        mark_written(&mut self.items, write);
    }

    /// From what is live after a step to what is live before it.
    pub fn step_back(&mut self, step: &Step)
        ensures { self.new ≡ set_before step.now self.old }
    {
        step_back(&mut self.items, step);
    }
}

/// Puts a temporary in, if there is room for it.
fn mark(set: &mut [bool], t: u64)
    ensures { set.new ≡ slice_set set.old t true }
{
    if (t as usize) < set.len() {
        set[t as usize] = true;
    }
}

/// Takes a temporary out.
fn unmark(set: &mut [bool], t: u64)
    ensures { set.new ≡ slice_set set.old t false }
{
    if (t as usize) < set.len() {
        set[t as usize] = false;
    }
}

/// Puts temporaries in.
fn mark_all(set: &mut [bool], temps: &[u64])
    ensures { set.new ≡ marked temps.now set.old }
{
    for t in temps {
        mark(set, *t);
    }
}

/// Puts in what a step writes.
fn mark_written(set: &mut [bool], write: Option<u64>)
    ensures { set.new ≡ with_written write set.old }
{
    match write {
        Some(t) => mark(set, t),
        None => {}
    }
}

fn unmark_written(set: &mut [bool], write: Option<u64>)
    ensures { set.new ≡ unmarked write set.old }
{
    match write {
        Some(t) => unmark(set, t),
        None => {}
    }
}

/// From what is live after a step to what is live before it.
fn step_back(set: &mut [bool], step: &Step)
    ensures { set.new ≡ set_before step.now set.old }
{
    unmark_written(set, step.write);
    mark_all(set, step.reads.as_slice());
}
