// Code in progress.

ghost use Rattle.std.specs.Prelude.{◌≡◌, ◌<◌, ◌++◌, ◌∷◌, ◌+◌, ◌-◌, [], List, drop, length, map, option_map, slice_get, take, IfOk, IfSome};
ghost use Rattle.std.specs.Prelude.{OnOk};
ghost use Rattle.tac_lower.specs.Items as items;
ghost use Rattle.tac_lower.specs.Items.{count_ends, does, ends, loop_of, repeats, repeats_unless};
ghost use Rattle.tac_lower.specs.Pieces.{bound, holder_of, with_area, with_temp};
ghost use Rattle.tac_lower.specs.Data.{bound_of, ending_in, ending_of, held_of, item_of, reached, reaching};
ghost use Rattle.tac_lower.specs.Works.{begun};

use crate::item::{Ending, Item, left_by, reaching};
use crate::value::{Bound, Holder};
use std::alloc::Global;
use std::marker::Model;
use tac_form::{Instruction, Operand};
use tl_base::{NoMemory, SymId};

/// The code of a function so far: its items and how many of them end blocks, the temporaries and the areas, the variables in scope,
/// the nearest first, and the number of the next declaration.
#[derive(Drop)]
pub(crate) struct Work {
    alloc: Global,
    code: Vec<Item>,
    ended: u64,
    temps: u64,
    areas: Vec<u64>,
    scope: Vec<Bound>,
    next: u64,
}

impl Model for Work {
    ghost use Rattle.std.specs.Prelude.{◌≡◌, map};
    ghost use Rattle.tac_lower.specs.Items.{count_ends};
    ghost use Rattle.tac_lower.specs.Data.{bound_of, item_of};
    ghost use Rattle.tac_lower.specs.Works.{Made};

    ghost Value = { Made };

    ghost view = { λ w. record {
      code = map item_of w.code.items;
      used = record { temps = w.temps; areas = w.areas.items };
      scope = map bound_of w.scope.items;
      next = w.next;
    } };

    ghost invariant = { λ w. w.ended ≡ count_ends (map item_of w.code.items) };
}

/// Where an ending stands that isn't whole yet: its position, and how many blocks end up to it.
#[derive(Clone, Copy)]
pub(crate) struct Mark {
    pub(crate) position: usize,
    pub(crate) ended: u64,
}

impl Work {
    /// No code yet.
    pub(crate) fn new(alloc: Global) -> Work
        ensures { result ≡ begun }
    {
        Work {
            alloc,
            code: Vec::new(alloc),
            ended: 0,
            temps: 0,
            areas: Vec::new(alloc),
            scope: Vec::new(alloc),
            next: 0,
        }
    }

    /// The allocator from which the code takes memory.
    pub(crate) fn allocator(&self) -> Global {
        self.alloc
    }

    /// How many items there are.
    pub(crate) fn length(&self) -> usize
        ensures { result ≡ length self.now.code }
    {
        self.code.len()
    }

    /// How many blocks have ended.
    pub(crate) fn ended(&self) -> u64
        ensures { result ≡ count_ends self.now.code }
    {
        self.ended
    }

    /// The place behind the code, with the number of the blocks that have ended.
    pub(crate) fn mark(&self) -> Mark
        ensures position { result.position ≡ length self.now.code }
        ensures ended { result.ended ≡ count_ends self.now.code }
    {
        Mark {
            position: self.code.len(),
            ended: self.ended,
        }
    }

    /// How many temporaries there are.
    pub(crate) fn temps(&self) -> u64
        ensures { result ≡ self.now.used.temps }
    {
        self.temps
    }

    /// One more instruction.
    pub(crate) fn put(&mut self, instruction: Instruction) -> Result<(), NoMemory>
        ensures { OnOk result (self.new ≡ record self.old { code = self.old.code ++ does instruction ∷ [] }) }
    {
        self.code.push(Item::Does(instruction))?;
        Ok(())
    }

    /// The block in progress ends.
    pub(crate) fn end(&mut self, ending: Ending) -> Result<(), NoMemory>
        ensures { OnOk result (self.new ≡ record self.old { code = self.old.code ++ ends (ending_of ending) ∷ [] }) }
    {
        let ended = self.ended.checked_add(1).ok_or(NoMemory)?;
        self.code.push(Item::Ends(ending))?;
        self.ended = ended;
        Ok(())
    }

    /// The block in progress ends by the way back to the block that begins at a mark.
    pub(crate) fn go_back(&mut self, start: Mark) -> Result<(), NoMemory>
        ensures { OnOk result (self.new ≡ record self.old
            { code = self.old.code ++ ends (repeats (count_ends self.old.code - start.ended)) ∷ [] }) }
    {
        let blocks = self.ended.saturating_sub(start.ended);
        self.end(Ending::Repeats(blocks))
    }

    /// The block in progress goes on in the next one where a word isn't zero, and else goes back to the block that begins at a mark.
    pub(crate) fn go_back_unless(&mut self, test: Operand, start: Mark) -> Result<(), NoMemory>
        ensures { OnOk result (self.new ≡ record self.old
            { code = self.old.code ++ ends (repeats_unless test (count_ends self.old.code - start.ended)) ∷ [] }) }
    {
        let blocks = self.ended.saturating_sub(start.ended);
        self.end(Ending::RepeatsUnless(test, blocks))
    }

    /// A temporary that nothing else writes.
    pub(crate) fn temp(&mut self) -> Result<u64, NoMemory>
        ensures temp { IfOk result (λ t. t ≡ self.old.used.temps) }
        ensures work { OnOk result (self.new ≡ record self.old { used = with_temp self.old.used }) }
    {
        let t = self.temps;
        self.temps = t.checked_add(1).ok_or(NoMemory)?;
        Ok(t)
    }

    /// An area of so many bytes.
    pub(crate) fn area(&mut self, size: u64) -> Result<u64, NoMemory>
        ensures area { IfOk result (λ n. n ≡ length self.old.used.areas) }
        ensures work { OnOk result (self.new ≡ record self.old { used = with_area size self.old.used }) }
    {
        let n = self.areas.len() as u64;
        self.areas.push(size)?;
        Ok(n)
    }

    /// The number of the next declaration.
    pub(crate) fn next(&self) -> u64
        ensures { result ≡ self.now.next }
    {
        self.next
    }

    /// A declaration is passed.
    pub(crate) fn pass(&mut self) -> Result<(), NoMemory>
        ensures { OnOk result (self.new ≡ record self.old { next = self.old.next + 1 }) }
    {
        self.next = self.next.checked_add(1).ok_or(NoMemory)?;
        Ok(())
    }

    /// A variable comes into scope.
    pub(crate) fn bind(&mut self, x: SymId, holder: Holder) -> Result<(), NoMemory>
        ensures { OnOk result (self.new ≡ record self.old { scope = bound x (held_of holder) self.old.scope }) }
    {
        self.scope.insert(0, Bound { symbol: x, holder })?;
        Ok(())
    }

    /// Where the nearest variable of a symbol is.
    pub(crate) fn holder(&self, x: SymId) -> Option<Holder>
        ensures { option_map held_of result ≡ holder_of x self.now.scope }
    {
        find_in(&self.scope, x)
    }

    /// How many variables are in scope.
    pub(crate) fn depth(&self) -> usize
        ensures { result ≡ length self.now.scope }
    {
        self.scope.len()
    }

    /// A scope is left: of the variables only so many stay, the outermost.
    pub(crate) fn leave(&mut self, count: usize) -> Result<(), NoMemory>
        ensures { OnOk result (self.new ≡ record self.old { scope = drop (length self.old.scope - count) self.old.scope }) }
    {
        let inner = self.scope.len().saturating_sub(count);
        self.scope = self.scope.split_off(inner)?;
        Ok(())
    }

    /// The forward ending that stands at a mark leads past all blocks that have ended behind it.
    pub(crate) fn close(&mut self, mark: Mark)
        ensures { (front code : List items.Item) (e : items.Ending) → self.old.code ≡ front ++ ends e ∷ code →
            mark.position ≡ length front → mark.ended ≡ count_ends front →
            self.new ≡ record self.old { code = front ++ ends (reaching e (count_ends code)) ∷ code } }
    {
        let blocks = self.ended.saturating_sub(mark.ended).saturating_sub(1);
        close_at(&mut self.code, mark.position, blocks);
    }

    /// The code behind a mark is a whole loop's: what leaves it leads behind it.
    pub(crate) fn close_loop(&mut self, mark: Mark)
        ensures { self.new ≡ record self.old { code = take mark.position self.old.code ++ loop_of (drop mark.position self.old.code) } }
    {
        leave_loop(&mut self.code, mark.position);
    }

    /// The items and the areas.
    pub(crate) fn into_parts(self) -> (Vec<Item>, Vec<u64>)
        ensures code { map item_of result.0.items ≡ self.code }
        ensures areas { result.1.items ≡ self.used.areas }
    {
        (self.code, self.areas)
    }
}

/// Where the nearest variable of a symbol is.
fn find_in(scope: &[Bound], x: SymId) -> Option<Holder>
    ensures { option_map held_of result ≡ holder_of x (map bound_of scope.now) }
{
    for v in scope {
        if x.0 == v.symbol.0 {
            return Some(v.holder);
        }
    }
    None
}

/// The ending at a position, where an ending stands there.
fn ending_at(code: &[Item], position: usize) -> Option<Ending>
    ensures ending { option_map ending_of result ≡ ending_in (slice_get (map item_of code.now) position) }
    ensures there { IfSome result (λ e. position < length code.now) }
{
    match code.get(position) {
        Some(Item::Ends(ending)) => Some(*ending),
        Some(Item::Does(_)) => None,
        None => None,
    }
}

/// The forward ending at a position leads past so many blocks.
fn close_at(code: &mut [Item], position: usize, blocks: u64)
    ensures { map item_of code.new ≡ reached (map item_of code.old) position blocks }
{
    match ending_at(code, position) {
        Some(ending) => code[position] = Item::Ends(reaching(ending, blocks)),
        None => {}
    }
}

/// What leaves the loop that begins at a position leads behind all the code.
fn leave_loop(code: &mut [Item], start: usize)
    ensures { map item_of code.new ≡ take start (map item_of code.old) ++ loop_of (drop start (map item_of code.old)) }
{
    let count = code.len();
    if count <= start {
        return;
    }
    let mut i = count;
    let mut behind = 0;
    while start < i {
        i -= 1;
        match ending_at(code, i) {
            Some(ending) => {
                code[i] = Item::Ends(left_by(ending, behind));
                behind += 1;
            }
            None => {}
        }
    }
}
