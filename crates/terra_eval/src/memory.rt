// Values in the region.

ghost use Rattle.std.specs.Prelude.{◌≡◌, ◌<◌, ◌+◌, ◌%◌, ◌^◌, IfOk, Some, None};
ghost use Rattle.std.specs.Bool.{OnTrue, OnFalse};
ghost use Rattle.terra_memory.specs.Numbers.{low_bytes, number_of, overwritten, part};
ghost use Rattle.terra_memory.specs.Region.{is_inside};
ghost use Rattle.terra_words.specs.Runs.{put_bytes};
ghost use Rattle.terra_meaning.specs.Values.{decoded, encoded};
ghost use Rattle.terra_meaning.specs.Meaning.{loaded, stored};
ghost use Rattle.terra_eval.specs.Views.{GaveJust, GaveUnit, GaveValue};

use crate::state::State;
use crate::stop::Stop;
use crate::types::{bytes_at, is_aggregate, width_of};
use crate::value::Value;
use std::alloc::{AllocError, Global};
use terra_memory::Region;
use terra_types::Types;
use terra_words::FaultKind;
use tl_base::limits::REGION_ADDRESS;
use tl_base::{Place, TypeId};
use word_ops::wrap;

/// Whether all bytes of a range that isn't empty lie in the region. Past an address that does, 64 bits count on.
fn is_inside(region: &Region, address: u64, count: u64) -> bool
    ensures inside { result ≡ is_inside region.now address count }
    ensures fits { OnTrue result (address + count < 2 ^ 32) }
{
    let end = REGION_ADDRESS + region.memory_size();
    if address < REGION_ADDRESS {
        return false;
    }
    match address.checked_add(count) {
        None => false,
        Some(last) => last <= end,
    }
}

/// Writes bytes to the region, and answers true; false exactly where one of them is outside, and then nothing has changed.
pub fn put(region: &mut Region, address: u64, bytes: &[u8]) -> bool
    ensures there { OnTrue result (put_bytes region.old address bytes.now ≡ Some region.new) }
    ensures outside { OnFalse result ((put_bytes region.old address bytes.now ≡ None) × (region.new ≡ region.old)) }
{
    if bytes.len() == 0 {
        return true;
    }
    if !is_inside(region, address, bytes.len() as u64) {
        return false;
    }
    for (i, byte) in bytes.iter().enumerate() {
        region.store(address + i as u64, 1, u64::from(*byte));
    }
    true
}

/// The lowest 64 bits of the number that bytes make, the lowest byte first.
fn number_of(bytes: &[u8]) -> u64
    ensures { result ≡ number_of bytes.now % 2 ^ 64 }
{
    let mut number: u64 = 0;
    let mut left = bytes.len();
    while left > 0 {
        left -= 1;
        number = number
            .wrapping_mul(256)
            .wrapping_add(u64::from(bytes[left]));
    }
    number
}

/// The lowest bytes of a number, the lowest byte first.
fn low_bytes(alloc: Global, count: u64, value: u64) -> Result<Vec<u8>, AllocError>
    ensures { IfOk result (λ bs. bs.items ≡ low_bytes count value) }
{
    let mut bytes = Vec::new(alloc);
    let mut rest = value;
    for _ in 0..count {
        bytes.push((rest % 256) as u8)?;
        rest /= 256;
    }
    Ok(bytes)
}

/// The bytes from an offset on, as many as there are up to a count.
pub(crate) fn part(bytes: &[u8], offset: u64, count: u64) -> &[u8]
    ensures { result.now ≡ part bytes.now offset count }
{
    let size = bytes.len() as u64;
    let start = offset.min(size);
    let end = start + count.min(size - start);
    &bytes[start as usize..end as usize]
}

/// The bytes with others in place of those from an offset on.
pub(crate) fn overwritten(
    alloc: Global,
    bytes: &[u8],
    offset: u64,
    others: &[u8],
) -> Result<Vec<u8>, AllocError>
    ensures { IfOk result (λ all. all.items ≡ overwritten bytes.now offset others.now) }
{
    let size = bytes.len() as u64;
    let start = offset.min(size);
    let end = offset.saturating_add(others.len() as u64).min(size);
    let mut all = Vec::new(alloc);
    all.extend_from_slice(&bytes[..start as usize])?;
    all.extend_from_slice(others)?;
    all.extend_from_slice(&bytes[end as usize..])?;
    Ok(all)
}

/// A value from a type's bytes. The width of a word takes its lowest bits, of which none is past the 64th.
#[tactic(auto, using(crate::proofs::Bytes::wrapped_low))]
pub(crate) fn decode(alloc: Global, types: &Types, of: TypeId, bytes: &[u8]) -> Result<Value, Stop>
    ensures { GaveJust result (decoded types.now of bytes.now) }
{
    if is_aggregate(types, of) {
        return Ok(Value::from_bytes(bytes.to_vec(alloc)?));
    }
    let number = number_of(bytes);
    Ok(Value::word(wrap(width_of(types, of), u128::from(number))))
}

/// The bytes of a value of a type.
pub(crate) fn encode(
    alloc: Global,
    types: &Types,
    of: TypeId,
    v: &Value,
) -> Result<Vec<u8>, AllocError>
    ensures { IfOk result (λ bs. bs.items ≡ encoded types.now of v.now) }
{
    if is_aggregate(types, of) {
        v.as_bytes().to_vec(alloc)
    } else {
        low_bytes(alloc, bytes_at(types, of), v.number())
    }
}

/// The value of a type at an address.
pub(crate) fn load(
    alloc: Global,
    types: &Types,
    at: Place,
    of: TypeId,
    address: u64,
    state: &State,
) -> Result<Value, Stop>
    ensures { GaveValue result state.now (loaded types.now at of address state.now) }
{
    match state.bytes(address, bytes_at(types, of)) {
        None => Err(Stop::fault(FaultKind::BadAddress, at)),
        Some(bytes) => decode(alloc, types, of, bytes),
    }
}

/// A value of a type is stored at an address.
pub(crate) fn store(
    alloc: Global,
    types: &Types,
    at: Place,
    of: TypeId,
    address: u64,
    v: &Value,
    state: &mut State,
) -> Result<(), Stop>
    ensures { GaveUnit result state.new (stored types.now at of address v.now state.old) }
{
    let bytes = encode(alloc, types, of, v)?;
    if state.put(address, &bytes) {
        Ok(())
    } else {
        Err(Stop::fault(FaultKind::BadAddress, at))
    }
}
