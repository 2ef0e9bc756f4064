// Calls of exports: symbols by name, the words of arguments and the texts of results.

ghost use Rattle.std.specs.Prelude.{◌≡◌, ◌+◌, ◌-◌, ◌%◌, ◌^◌, ◌≤◌, IfOk, option_map, string_bytes};
ghost use Rattle.elf_image.specs.Calls.{symbol_named, greatest, span, deepest, word_above, word_below, number_text, result_text};

use crate::image::Symbol;
use std::alloc::{AllocError, Global};

/// The symbol of this name, if there is one.
pub(crate) fn find_symbol<'a>(symbols: &'a [Symbol], name: &[u8]) -> Option<&'a Symbol>
    ensures { option_map (λ s. s.now) result ≡ symbol_named name.now symbols.now }
{
    let mut rest = symbols;
    'symbols: while let Some((symbol, others)) = rest.split_first() {
        if name == symbol.name.as_slice() {
            return Some(symbol);
        }
        rest = others;
    }
    None
}

// The greatest number of a type.
fn greatest(code: u8) -> u64
    ensures { result ≡ greatest code }
{
    match code {
        1 => 0x7f,
        2 => 0x7fff,
        3 => 0x7fff_ffff,
        4 => 0x7fff_ffff_ffff_ffff,
        5 => 0xff,
        6 => 0xffff,
        7 => 0xffff_ffff,
        _ => u64::MAX,
    }
}

// The greatest word of a type's bits.
fn mask(code: u8) -> u64
    ensures { result + 1 ≡ span code }
{
    match code {
        1 | 5 => 0xff,
        2 | 6 => 0xffff,
        3 | 7 => 0xffff_ffff,
        _ => u64::MAX,
    }
}

// The low bits of a word that a type has.
fn low_bits(code: u8, word: u64) -> u64
    ensures { result ≡ word % span code }
{
    match mask(code) {
        u64::MAX => word,
        mask => word % (mask + 1),
    }
}

/// The word of an argument from zero up, where its type has it.
pub fn word_above(code: u8, size: u64) -> Option<u64>
    ensures { result ≡ word_above code size }
{
    if size <= greatest(code) {
        Some(size)
    } else {
        None
    }
}

/// The word of an argument from zero down, by its size, where its type has it: two's complement.
pub fn word_below(code: u8, size: u64) -> Option<u64>
    ensures { result ≡ word_below code size }
{
    if size <= mask(code) - greatest(code) {
        Some(size.wrapping_neg())
    } else {
        None
    }
}

/// The text of a result that stands in a word.
pub fn result_text(alloc: Global, code: u8, word: u64) -> Result<String, AllocError>
    ensures { IfOk result (λ text. string_bytes text ≡ result_text code word) }
{
    match code {
        0 => String::from_str(alloc, "none"),
        9 => String::from_str(alloc, if word % 2 == 1 { "true" } else { "false" }),
        _ => number_text(alloc, code, low_bits(code, word)),
    }
}

// The text of a number of a type, by its low bits.
fn number_text(alloc: Global, code: u8, low: u64) -> Result<String, AllocError>
    requires { low + 1 ≤ span code }
    ensures { IfOk result (λ text. string_bytes text ≡ number_text code low) }
{
    if low <= greatest(code) {
        format!(in alloc; "{low}")
    } else {
        let size = mask(code) - low + 1;
        format!(in alloc; "-{size}")
    }
}
