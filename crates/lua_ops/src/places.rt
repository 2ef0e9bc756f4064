// The text of an error with a place before it.

ghost use Rattle.std.specs.Prelude.{◌≡◌, [], ◌≤◌, ◌+◌, IfOk, length};
ghost use Rattle.lua_ops.specs.Placed.{placed};

use std::alloc::Global;
use tl_base::{Bytes, NoMemory, Place};

/// A text with a place before it, as `LINE:WORD: TEXT`.
pub fn placed(alloc: Global, place: Place, text: &[u8]) -> Result<Bytes, NoMemory>
    ensures whole { IfOk result (λ whole. whole ≡ placed place text.now) }
    ensures longer { IfOk result (λ whole. length whole ≤ length text.now + 30) }
{
    let mut whole = front(alloc, place.line, place.word)?;
    whole.push_all(text)?;
    Ok(whole)
}

/// A place, as it stands before a text.
fn front(alloc: Global, line: u32, word: u32) -> Result<Bytes, NoMemory>
    ensures front { IfOk result (λ front. front ≡ placed (record { line = line; word = word }) []) }
    ensures short { IfOk result (λ front. length front ≤ 30) }
{
    let written = format!(in alloc; "{line}:{word}: ")?;
    let mut front = Bytes::new(alloc);
    front.push_all(written.as_bytes())?;
    Ok(front)
}
