// Memory: where bytes lie, and loads and stores of each width.

ghost use Rattle.std.specs.Prelude.{◌≡◌, ℕ, ◌+◌, ◌^◌, ◌<◌, ◌≤◌, List, length, take, IfSome};
ghost use Rattle.tl_base.specs.declared.limits.TheConstants.Limits.{MAX_MEMORY};
ghost use Rattle.byteorder.specs.Endian.{little_number, little_bytes};
ghost use Rattle.terra_memory.specs.Numbers.{number_of, low_bytes, overwritten, part};
ghost use Rattle.rv_machine.specs.Memory.{most_private, offset_in, place_of, FitsIn, load_width, load_value, store_width};

use rv_isa::{LoadOp, StoreOp};
use terra_memory::number::{number_at, put_number};
use tl_base::limits::{PRIVATE_ADDRESS, REGION_ADDRESS};

/// Where bytes lie: in which of the two areas, and how far from its begin.
#[derive(Clone, Copy, PartialEq, Eq)]
pub enum Place {
    /// So many bytes from the begin of the region.
    Region(usize),
    /// So many bytes from the begin of private memory.
    Private(usize),
}

/// Where bytes at an address lie wholly, in a region and private memory of these sizes. The upper half of the address says in which
/// of the two, since the region ends below private memory.
#[inline]
#[tactic(auto, unfolding(crate::specs::Memory::place_of, crate::specs::Memory::offset_in))]
pub(crate) fn find_place(region: usize, private: usize, address: u64, width: u64) -> Option<Place>
    requires region { region ≤ MAX_MEMORY }
    requires private { private ≤ most_private }
    ensures place { result ≡ place_of region private address width }
    ensures within { IfSome result (FitsIn region private width) }
{
    if address < PRIVATE_ADDRESS {
        match offset(REGION_ADDRESS, region, address, width) {
            Some(at) => Some(Place::Region(at)),
            None => None,
        }
    } else {
        match offset(PRIVATE_ADDRESS, private, address, width) {
            Some(at) => Some(Place::Private(at)),
            None => None,
        }
    }
}

// Where bytes lie in an area of `size` bytes that begins at `start`. An address before it is a very long way after it, since
// addresses wrap.
#[inline]
#[tactic(auto, unfolding(crate::specs::Memory::offset_in))]
fn offset(start: u64, size: usize, address: u64, width: u64) -> Option<usize>
    requires { start + size < 2 ^ 64 }
    ensures offset { result ≡ offset_in start size address width }
    ensures within { IfSome result (λ at. at + width ≤ size) }
{
    let at = address.wrapping_sub(start) as usize;
    let width = width as usize;
    if width <= size && at <= size - width {
        Some(at)
    } else {
        None
    }
}

/// How many bytes a load reads.
pub(crate) fn load_width(op: LoadOp) -> u64
    ensures { result ≡ load_width op }
{
    match op {
        LoadOp::Lb | LoadOp::Lbu => 1,
        LoadOp::Lh | LoadOp::Lhu => 2,
        LoadOp::Lw | LoadOp::Lwu => 4,
        LoadOp::Ld => 8,
    }
}

/// How many bytes a store writes.
pub(crate) fn store_width(op: StoreOp) -> u64
    ensures { result ≡ store_width op }
{
    match op {
        StoreOp::Sb => 1,
        StoreOp::Sh => 2,
        StoreOp::Sw => 4,
        StoreOp::Sd => 8,
    }
}

/// What a load makes of the bytes of memory from an offset on.
pub(crate) fn load_value(op: LoadOp, memory: &[u8], at: usize) -> u64
    requires { at + load_width op ≤ length memory.now }
    ensures { result ≡ load_value op (part memory.now at (load_width op)) }
{
    match op {
        LoadOp::Lb => i64::from((number_at(memory, at, 1) as u8).cast_signed()).cast_unsigned(),
        LoadOp::Lh => i64::from((number_at(memory, at, 2) as u16).cast_signed()).cast_unsigned(),
        LoadOp::Lw => i64::from((number_at(memory, at, 4) as u32).cast_signed()).cast_unsigned(),
        LoadOp::Ld => number_at(memory, at, 8),
        LoadOp::Lbu => number_at(memory, at, 1),
        LoadOp::Lhu => number_at(memory, at, 2),
        LoadOp::Lwu => number_at(memory, at, 4),
    }
}

/// Puts the lowest bytes of a value into memory, the lowest of all first.
pub(crate) fn put_value(op: StoreOp, memory: &mut [u8], at: usize, value: u64)
    requires { at + store_width op ≤ length memory.old }
    ensures { memory.new ≡ overwritten memory.old at (low_bytes (store_width op) value) }
{
    match op {
        StoreOp::Sb => put_number(memory, at, 1, value),
        StoreOp::Sh => put_number(memory, at, 2, value),
        StoreOp::Sw => put_number(memory, at, 4, value),
        StoreOp::Sd => put_number(memory, at, 8, value),
    }
}

/// The numbers in the fields of an image's file, which `byteorder` reads and writes, are those that memory holds.
pub fn files_hold_numbers_as_memory_does()
    ensures read { (count : ℕ) (bytes : List ℕ) → count ≤ length bytes → little_number count bytes ≡ number_of (take count bytes) }
    ensures written { (count value : ℕ) → little_bytes count value ≡ low_bytes count value }
{}
