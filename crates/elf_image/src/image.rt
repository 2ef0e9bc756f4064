// What an image holds.

ghost use Rattle.std.specs.Prelude.{◌≡◌};

use crate::calls::find_symbol;
use tl_base::{Bytes, List};

/// The instruction words of the text, in order of their addresses.
pub type Words = List<u32>;

/// A function that stands as a value: the first entry of an image is the value 1, the next one 2, and so on.
#[derive(Clone, Copy)]
pub struct Entry {
    /// Where a call by value enters it: a multiple of 4 in the text.
    pub address: u64,
    /// Which parameter types and which result type it has: a number from 1 to that of entries, the same for entries with the same types.
    pub signature: u64,
}

/// The functions of an image that stand as values, in order of these.
pub type Entries = List<Entry>;

/// A function that can be called from outside.
#[derive(Drop)]
pub struct Symbol {
    /// Its name: 1 to 255 bytes, none of them zero.
    pub name: Bytes,
    /// Where its code begins: a multiple of 4 in the text, which begins at 0x10000.
    pub address: u64,
    /// The type codes of its parameters, at most eight: 1 to 4 for int8 to int64, 5 to 8 for uint8 to uint64, 9 for bool, 10
    /// for a pointer.
    pub params: Bytes,
    /// The type code of its result, or 0 for none.
    pub result: u8,
}

/// The exports of an image, in order.
pub type Symbols = List<Symbol>;

/// A linked program: what is loaded into a machine's memories, and the functions that can be called.
#[derive(Drop)]
pub struct Image {
    /// The instruction words, from address 0x10000 on.
    pub text: Words,
    /// The bytes with which the region begins, at address 0x40000000.
    pub statics: Bytes,
    /// The functions that stand as values, with which the private memory begins: at most 131,072, of 16 bytes each.
    pub entries: Entries,
    /// Bytes of the region: a multiple of 1,024 from 65,536 to 67,108,864.
    pub memory: u64,
    /// The address at which the heap begins: the first multiple of 16 at or after the end of the static bytes.
    pub heap: u64,
    /// Bytes of the private memory, which begins at 0x100000000, beyond its entries: a multiple of 512, at most 603,979,776.
    pub private: u64,
    /// The functions that can be called, each with a name of its own.
    pub exports: Symbols,
}

impl Image {
    ghost use Rattle.std.specs.Prelude.{option_map};
    ghost use Rattle.elf_image.specs.Calls.{symbol_named};

    /// The function of this name, if there is one.
    pub fn find(&self, name: &[u8]) -> Option<&Symbol>
        ensures { option_map (λ s. s.now) result ≡ symbol_named name.now self.now.exports }
    {
        find_symbol(self.exports.as_slice(), name)
    }
}
