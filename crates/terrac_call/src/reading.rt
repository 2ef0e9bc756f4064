// The source, read to its end.

ghost use Rattle.std.specs.Prelude.{◌≡◌, ◌+◌, ◌<◌, ◌≤◌, ◌⊎◌, length, Ok, IfOk, OnOk, OnErr, Err};
ghost use Rattle.tl_base.specs.Outside.{with_front, IsAtEnd, IsRisen};
ghost use Rattle.terrac_call.specs.Reading.{TookAtMost};
ghost use Rattle.terrac_call.specs.Delivery.{Gathered};
ghost use Rattle.terrac_call.specs.declared.reading.ReadError.TheVariants as errors;

use std::alloc::Global;
use tl_base::{NoMemory, Source};

/// Why a source was not read.
#[derive(Clone, Copy, PartialEq, Eq)]
pub(crate) enum ReadError {
    /// A read failed.
    Unread,
    /// Memory was not found.
    NoMemory,
}

impl From<NoMemory> for ReadError {
    ghost from_gives = { λ _ e. e ≡ errors.NoMemory };

    fn from(_: NoMemory) -> ReadError {
        ReadError::NoMemory
    }
}

/// Reads a source to its end, or up to `most` bytes.
pub(crate) fn read_source<S: Source>(
    alloc: Global,
    source: &mut S,
    most: usize,
) -> Result<Vec<u8>, ReadError>
    ensures text { IfOk result (λ text. S.left source.old ≡ with_front text.items (S.left source.new)) }
    ensures within { IfOk result (λ text. length text.items ≤ most) }
    ensures whole { IfOk result (λ text. (length text.items ≡ most) ⊎ IsAtEnd (S.left source.new)) }
    ensures bound { TookAtMost most (S.left source.old) (S.left source.new) }
    ensures quiet { OnOk result (S.faults source.new ≡ S.faults source.old) }
    ensures unread { result ≡ Err errors.Unread → IsRisen (S.faults source.old) (S.faults source.new) }
    ensures no_memory { result ≡ Err errors.NoMemory → S.faults source.new ≡ S.faults source.old }
{
    let mut chunk = new_chunk(alloc)?;
    let mut text = Vec::new(alloc);
    'reads: while text.len() < most {
        let room = chunk.len().min(most - text.len());
        if read_more(source, &mut chunk[..room], &mut text)? == 0 {
            break;
        }
    }
    Ok(text)
}

/// What a read fills: 64 KiB.
fn new_chunk(alloc: Global) -> Result<Vec<u8>, NoMemory>
    ensures { IfOk result (λ chunk. 0 < length chunk.items) }
{
    let chunk = vec![in alloc; 0u8; 65_536]?;
    Ok(chunk)
}

/// Reads once, and puts what came behind the text. Answers how many bytes came: none at the end of the source.
fn read_more<S: Source>(
    source: &mut S,
    chunk: &mut [u8],
    text: &mut Vec<u8>,
) -> Result<usize, ReadError>
    ensures text { OnOk result (Gathered (length chunk.old) text.old.items text.new.items (S.left source.old) (S.left source.new)) }
    ensures count { IfOk result (λ count. length text.new.items ≡ length text.old.items + count) }
    ensures end { result ≡ Ok 0 → 0 < length chunk.old → IsAtEnd (S.left source.new) }
    ensures bound { TookAtMost (length chunk.old) (S.left source.old) (S.left source.new) }
    ensures quiet { OnOk result (S.faults source.new ≡ S.faults source.old) }
    ensures unread { result ≡ Err errors.Unread → IsRisen (S.faults source.old) (S.faults source.new) }
    ensures no_memory { result ≡ Err errors.NoMemory → S.faults source.new ≡ S.faults source.old }
{
    let Ok(count) = source.read(chunk) else {
        return Err(ReadError::Unread);
    };
    match text.extend_from_slice(&chunk[..count]) {
        Ok(()) => Ok(count),
        Err(_) => Err(ReadError::NoMemory),
    }
}
