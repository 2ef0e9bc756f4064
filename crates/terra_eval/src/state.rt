// A running program.

ghost use Rattle.std.specs.Prelude.{◌≡◌, ◌++◌, ◌-◌, [], suc, true, false, map, drop, length, option_map, Some, None, IfOk, IfErr, OnOk};
ghost use Rattle.std.specs.Prelude.{MatchOption};
ghost use Rattle.std.specs.Bool.{OnTrue, OnFalse};
ghost use Rattle.terra_memory.specs.Region.{alloc_of, end_address, heap_limit, range_of};
ghost use Rattle.terra_words.specs.Runs.{put_bytes};
ghost use Rattle.terra_words.specs.Words.{signed};
ghost use Rattle.terra_meaning.specs.Running.{find, found, held, set, with_value, with_variable};
ghost use Rattle.terra_eval.specs.Variables.{held_of, variable_of};

use crate::memory::put;
use crate::stop::{Halt, Stop};
use std::alloc::{AllocError, Global};
use std::marker::Model;
use std::mem;
use terra_memory::Region;
use tl_base::SymId;
use tl_base::limits::REGION_ADDRESS;

/// What a variable is: a word, or an address at which it lies.
#[derive(Clone, Copy)]
pub(crate) enum Held {
    Word(u64),
    At(u64),
}

/// A variable in scope.
#[derive(Clone, Copy)]
pub(crate) struct Variable {
    pub(crate) symbol: SymId,
    pub(crate) is: Held,
}

/// A running program: the variables in scope of the function that runs, the nearest first; the region; how many calls and turns may
/// still begin; and the output so far.
#[derive(Drop)]
pub(crate) struct State {
    alloc: Global,
    variables: Vec<Variable>,
    region: Region,
    left: u64,
    out: Vec<u8>,
}

impl Model for State {
    ghost use Rattle.std.specs.Prelude.{map};
    ghost use Rattle.terra_meaning.specs.Running as running;
    ghost use Rattle.terra_eval.specs.Variables.{variable_of};

    ghost Value = { running.State };

    ghost view = { λ s. record {
      variables = map variable_of s.variables.items;
      region = s.region;
      left = s.left;
      out = s.out.items;
    } };
}

impl State {
    /// A program that begins, without variables or output.
    pub(crate) fn new(alloc: Global, region: Region, left: u64) -> State
        ensures { result ≡ record { variables = []; region = region; left = left; out = [] } }
    {
        State {
            alloc,
            variables: Vec::new(alloc),
            region,
            left,
            out: Vec::new(alloc),
        }
    }

    /// The output.
    pub(crate) fn into_out(self) -> Vec<u8>
        ensures { result.items ≡ self.out }
    {
        self.out
    }

    /// A call, or a turn after which a loop goes on: it takes one from the count.
    pub(crate) fn count(&mut self) -> Result<(), Stop>
        ensures ok { OnOk result ((self.old.left ≡ suc self.new.left) × (self.new ≡ record self.old { left = self.new.left })) }
        ensures err { IfErr result (λ e. (e ≡ Stop.Halted Halt.More) × (self.old.left ≡ 0) × (self.new ≡ self.old)) }
    {
        if self.left == 0 {
            return Err(Stop::Halted(Halt::More));
        }
        self.left -= 1;
        Ok(())
    }

    /// Prints bytes.
    pub(crate) fn print(&mut self, bytes: &[u8]) -> Result<(), AllocError>
        ensures { OnOk result (self.new ≡ record self.old { out = self.old.out ++ bytes.now }) }
    {
        self.out.extend_from_slice(bytes)
    }

    /// Prints bytes of the region, and answers true; false exactly where one of them is outside.
    pub(crate) fn print_range(&mut self, address: u64, count: u64) -> Result<bool, AllocError>
        ensures { IfOk result (λ there. MatchOption (range_of self.old.region address count)
            ((there ≡ false) × (self.new ≡ self.old))
            (λ bs. (there ≡ true) × (self.new ≡ record self.old { out = self.old.out ++ bs }))) }
    {
        match self.region.bytes(address, count) {
            None => Ok(false),
            Some(bytes) => {
                self.out.extend_from_slice(bytes)?;
                Ok(true)
            }
        }
    }

    /// Bytes of the region; none exactly where one of them is outside.
    pub(crate) fn bytes(&self, address: u64, count: u64) -> Option<&[u8]>
        ensures { MatchOption result (range_of self.now.region address count ≡ None)
            (λ range. range_of self.now.region address count ≡ Some range.now) }
    {
        self.region.bytes(address, count)
    }

    /// Writes bytes to the region, and answers true; false exactly where one of them is outside, and then nothing has changed.
    pub(crate) fn put(&mut self, address: u64, bytes: &[u8]) -> bool
        ensures there { OnTrue result ((put_bytes self.old.region address bytes.now ≡ Some self.new.region) ×
            (self.new ≡ record self.old { region = self.new.region })) }
        ensures outside { OnFalse result ((put_bytes self.old.region address bytes.now ≡ None) × (self.new ≡ self.old)) }
    {
        put(&mut self.region, address, bytes)
    }

    /// Bytes of the heap.
    pub(crate) fn alloc(&mut self, count: u64) -> u64
        ensures address { result ≡ (alloc_of self.old.region (signed count)).0 }
        ensures memory { self.new ≡ record self.old { region = (alloc_of self.old.region (signed count)).1 } }
    {
        self.region.alloc_bytes(count.cast_signed())
    }

    /// The first address behind the region.
    pub(crate) fn end_address(&self) -> u64
        ensures { result ≡ end_address self.now.region }
    {
        REGION_ADDRESS + self.region.memory_size()
    }

    /// The address at which the data stack's quarter begins.
    pub(crate) fn heap_limit(&self) -> u64
        ensures { result ≡ heap_limit self.now.region }
    {
        let memory = self.region.memory_size();
        REGION_ADDRESS + memory - memory / 4
    }

    /// A variable is declared.
    pub(crate) fn declare(&mut self, x: SymId, is: Held) -> Result<(), AllocError>
        ensures { OnOk result (self.new ≡ with_variable x (held_of is) self.old) }
    {
        self.variables.insert(0, Variable { symbol: x, is })?;
        Ok(())
    }

    /// The nearest variable of a symbol.
    pub(crate) fn find(&self, x: SymId) -> Option<Held>
        ensures { option_map held_of result ≡ found x self.now }
    {
        find_in(&self.variables, x)
    }

    /// The nearest variable of a symbol gets another word.
    pub(crate) fn set(&mut self, x: SymId, value: u64)
        ensures { self.new ≡ with_value x value self.old }
    {
        set_in(&mut self.variables, x, value)
    }

    /// How many variables are in scope.
    pub(crate) fn depth(&self) -> usize
        ensures { result ≡ length self.now.variables }
    {
        self.variables.len()
    }

    /// A scope is left: of the variables only so many stay, the outermost.
    pub(crate) fn leave(&mut self, count: usize) -> Result<(), AllocError>
        ensures { OnOk result (self.new ≡ record self.old { variables = drop (length self.old.variables - count) self.old.variables }) }
    {
        let inner = self.variables.len().saturating_sub(count);
        self.variables = self.variables.split_off(inner)?;
        Ok(())
    }

    /// A function begins, with no variables; those of its caller are handed out.
    pub(crate) fn begin_call(&mut self) -> Vec<Variable>
        ensures cleared { self.new ≡ record self.old { variables = [] } }
        ensures caller { map variable_of result.items ≡ self.old.variables }
    {
        mem::replace(&mut self.variables, Vec::new(self.alloc))
    }

    /// A function has ended, and the variables of its caller are there again.
    pub(crate) fn end_call(&mut self, variables: Vec<Variable>)
        ensures { self.new ≡ record self.old { variables = map variable_of variables.items } }
    {
        self.variables = variables;
    }
}

/// The nearest variable of a symbol.
fn find_in(variables: &[Variable], x: SymId) -> Option<Held>
    ensures { option_map held_of result ≡ find x (map variable_of variables.now) }
{
    for v in variables {
        if x.0 == v.symbol.0 {
            return Some(v.is);
        }
    }
    None
}

/// The nearest variable of a symbol gets another word.
fn set_in(variables: &mut [Variable], x: SymId, value: u64)
    ensures { map variable_of variables.new ≡ set x (held value) (map variable_of variables.old) }
{
    for i in 0..variables.len() {
        if x.0 == variables[i].symbol.0 {
            variables[i].is = Held::Word(value);
            return;
        }
    }
}
