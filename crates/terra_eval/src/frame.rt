// Where the variables of a function are.

ghost use Rattle.std.specs.Prelude.{◌≡◌, ◌+◌, ◌∷◌, List, unwrap_or, IfOk, IfSome};
ghost use Rattle.tl_base.specs.declared.ids.SymId.{SymId};
ghost use Rattle.terra_types.specs.Layouts.{rounded};
ghost use Rattle.terra_types.specs.Sizes.{align_of};
ghost use Rattle.terra_term.specs.Events as events;
ghost use Rattle.terra_term.specs.Events.{declared_in};
ghost use Rattle.terra_meaning.specs.Frames.{frame_of, framed, has};
ghost use Rattle.terra_meaning.specs.Values.{bytes_at};
ghost use Rattle.terra_eval.specs.Trees.{callable_tree};
ghost use Rattle.terra_eval.specs.Framing.{laid_out};
ghost use Rattle.terra_eval.specs.Views.{event_of, events_in, frame_view};

use crate::events::{Event, body_events};
use crate::laying::taken;
use crate::nodes::Callable;
use crate::types::{align_at, bytes_at, is_aggregate};
use std::alloc::Global;
use terra_term::Store;
use terra_types::Types;
use tl_base::{NoMemory, TypeId};

/// Where a declaration's variable is: a value alone, or at an offset of the frame.
#[derive(Clone, Copy)]
pub enum Home {
    ByValue,
    InFrame(u64),
}

/// A frame: the homes of the declarations in order, and how many bytes it has.
#[derive(Drop)]
pub struct Frame {
    pub homes: Vec<Home>,
    pub size: u64,
}

/// The first multiple of an alignment at or after an offset; none past 64 bits.
fn rounded(offset: u64, align: u64) -> Option<u64>
    ensures { IfSome result (λ n. n ≡ rounded offset align) }
{
    if align == 0 {
        return None;
    }
    let last = offset.checked_add(align - 1)?;
    Some(last / align * align)
}

/// The offset of a variable, and the offset behind it.
fn placed(types: &Types, t: TypeId, offset: u64) -> Option<(u64, u64)>
    ensures at { IfSome result (λ p. p.0 ≡ rounded offset (unwrap_or (align_of types.now t) 1)) }
    ensures end { IfSome result (λ p. p.1 ≡ p.0 + bytes_at types.now t) }
{
    let at = rounded(offset, align_at(types, t))?;
    let end = at.checked_add(bytes_at(types, t))?;
    Some((at, end))
}

/// Whether a number is among others.
fn has(number: u64, numbers: &[u64]) -> bool
    ensures { result ≡ has number numbers.now }
{
    for n in numbers {
        if number == *n {
            return true;
        }
    }
    false
}

/// A variable's home, at or after an offset of the frame; and the offset behind it.
fn place(
    types: &Types,
    taken: &[u64],
    t: TypeId,
    offset: u64,
    homes: &mut Vec<Home>,
) -> Result<u64, NoMemory>
    ensures { (x : SymId) (later : List events.Event) → IfOk result (λ next.
        laid_out types.now taken.now homes.new.items next later
        ≡ laid_out types.now taken.now homes.old.items offset (events.Declares x t ∷ later)) }
{
    let number = homes.len() as u64;
    if is_aggregate(types, t) || has(number, taken) {
        let (at, end) = placed(types, t, offset).ok_or(NoMemory)?;
        homes.push(Home::InFrame(at))?;
        return Ok(end);
    }
    homes.push(Home::ByValue)?;
    Ok(offset)
}

/// What an event adds to the homes, at or after an offset of the frame; and the offset behind it.
fn lay(
    types: &Types,
    taken: &[u64],
    event: Event,
    offset: u64,
    homes: &mut Vec<Home>,
) -> Result<u64, NoMemory>
    ensures { (later : List events.Event) → IfOk result (λ next.
        laid_out types.now taken.now homes.new.items next later
        ≡ laid_out types.now taken.now homes.old.items offset (event_of event ∷ later)) }
{
    match event {
        Event::Declares(_, t) => place(types, taken, t, offset, homes),
        Event::Opens => Ok(offset),
        Event::Closes => Ok(offset),
        Event::Takes(_) => Ok(offset),
        Event::Uses(_, _, _) => Ok(offset),
        Event::Mentions(_, _) => Ok(offset),
    }
}

/// The frame of declarations of which some have their address taken.
fn frame_from(
    alloc: Global,
    types: &Types,
    taken: &[u64],
    events: &[Event],
) -> Result<Frame, NoMemory>
    ensures { IfOk result (λ f. frame_view f ≡ framed types.now taken.now 0 0 (declared_in (events_in events.now))) }
{
    let mut homes = Vec::new(alloc);
    let mut offset = 0;
    for event in events {
        offset = lay(types, taken, *event, offset, &mut homes)?;
    }
    let size = rounded(offset, 16).ok_or(NoMemory)?;
    Ok(Frame { homes, size })
}

/// The frame of a function. One of more bytes than 64 bits count finds no memory.
pub fn frame_of(alloc: Global, store: &Store, k: &Callable<'_>) -> Result<Frame, NoMemory>
    ensures { IfOk result (λ f. frame_view f ≡ frame_of store.now.types (callable_tree store.now k.now).body) }
{
    let events = body_events(alloc, store, k)?;
    let taken = taken(alloc, &events)?;
    frame_from(alloc, store.types(), &taken, &events)
}
