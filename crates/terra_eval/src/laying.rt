// Which variables have addresses: the numbers of the declarations whose address is taken.

ghost use Rattle.std.specs.Prelude.{◌≡◌, ◌∷◌, [], List, IfOk, OnOk, MatchOption};
ghost use Rattle.tl_base.specs.declared.ids.TypeId.{TypeId};
ghost use Rattle.terra_term.specs.Events as events;
ghost use Rattle.terra_meaning.specs.Frames as frames;
ghost use Rattle.terra_meaning.specs.Frames.{number_of};
ghost use Rattle.terra_eval.specs.Framing.{scope_of, taken_with};
ghost use Rattle.terra_eval.specs.Views.{event_of, events_in};

use crate::events::Event;
use std::alloc::Global;
use tl_base::{NoMemory, SymId};

/// A declaration in scope: its symbol, and its number among the declarations of the function.
#[derive(Clone, Copy)]
pub(crate) struct InScope {
    pub(crate) symbol: SymId,
    pub(crate) number: u64,
}

/// The declarations in scope, the nearest first, those of the scopes around, how many there were so far, and the numbers of those
/// whose address was taken.
#[derive(Drop)]
pub(crate) struct Scopes {
    alloc: Global,
    here: Vec<InScope>,
    around: Vec<Vec<InScope>>,
    next: u64,
    taken: Vec<u64>,
}

impl Scopes {
    /// An event.
    fn step(&mut self, event: Event) -> Result<(), NoMemory>
        ensures { (later : List events.Event) → OnOk result (taken_with self.new later ≡ taken_with self.old (event_of event ∷ later)) }
    {
        match event {
            Event::Opens => self.open(),
            Event::Closes => {
                self.close();
                Ok(())
            }
            Event::Declares(symbol, _) => self.declare(symbol),
            Event::Takes(x) => self.take(x),
            Event::Uses(_, _, _) => Ok(()),
            Event::Mentions(_, _) => Ok(()),
        }
    }

    /// A scope begins, in which those around it are in scope too.
    fn open(&mut self) -> Result<(), NoMemory>
        ensures { (later : List events.Event) → OnOk result (taken_with self.new later ≡ taken_with self.old (events.Opens ∷ later)) }
    {
        let here = self.here.to_vec(self.alloc)?;
        self.around.insert(0, here)?;
        Ok(())
    }

    /// A scope ends.
    fn close(&mut self)
        ensures { (later : List events.Event) → taken_with self.new later ≡ taken_with self.old (events.Closes ∷ later) }
    {
        if self.around.is_empty() {
            self.here = Vec::new(self.alloc);
        } else {
            self.here = self.around.remove(0);
        }
    }

    /// A variable is declared. No function has more than 64 bits count.
    fn declare(&mut self, symbol: SymId) -> Result<(), NoMemory>
        ensures { (later : List events.Event) (of : TypeId) →
            OnOk result (taken_with self.new later ≡ taken_with self.old (events.Declares symbol of ∷ later)) }
    {
        let number = self.next;
        let next = number.checked_add(1).ok_or(NoMemory)?;
        self.here.insert(0, InScope { symbol, number })?;
        self.next = next;
        Ok(())
    }

    /// The address of a variable is taken.
    fn take(&mut self, x: SymId) -> Result<(), NoMemory>
        ensures { (later : List events.Event) → OnOk result (taken_with self.new later ≡ taken_with self.old (events.Takes x ∷ later)) }
    {
        match number_of(&self.here, x) {
            None => Ok(()),
            Some(number) => {
                self.taken.push(number)?;
                Ok(())
            }
        }
    }
}

/// The number of the nearest declaration of a symbol.
fn number_of(here: &[InScope], x: SymId) -> Option<u64>
    ensures { MatchOption result (number_of x (scope_of here.now) ≡ []) (λ n. number_of x (scope_of here.now) ≡ n ∷ []) }
{
    for d in here {
        if x.0 == d.symbol.0 {
            return Some(d.number);
        }
    }
    None
}

/// The numbers of the declarations whose address is taken.
pub(crate) fn taken(alloc: Global, events: &[Event]) -> Result<Vec<u64>, NoMemory>
    ensures { IfOk result (λ numbers. numbers.items ≡ frames.taken (events_in events.now) [] [] 0) }
{
    let mut scopes = Scopes {
        alloc,
        here: Vec::new(alloc),
        around: Vec::new(alloc),
        next: 0,
        taken: Vec::new(alloc),
    };
    for event in events {
        scopes.step(*event)?;
    }
    Ok(scopes.taken)
}
