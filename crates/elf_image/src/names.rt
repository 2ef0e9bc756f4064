// Whether the names of exports differ.

ghost use Rattle.std.specs.Prelude.{◌≡◌, IfOk};
ghost use Rattle.std.specs.List.{list_any};
ghost use Rattle.std.specs.Str.{bytes_eq};
ghost use Rattle.elf_image.specs.declared.image.Symbol.{Symbol};
ghost use Rattle.elf_image.specs.Exports.{names_differ};

use crate::image::Symbol;
use std::alloc::{AllocError, Global};
use std::collections::BTreeSet;

/// Whether no symbol has the name of another, in time n log n. Names from outside cannot slow a search tree down.
pub fn names_differ(alloc: Global, symbols: &[Symbol]) -> Result<bool, AllocError>
    ensures { IfOk result (λ differ. differ ≡ names_differ symbols.now) }
{
    let mut names = BTreeSet::new(alloc);
    for symbol in symbols {
        if !names.insert(symbol.name.as_slice())? {
            return Ok(false);
        }
    }
    Ok(true)
}

fn has_name(symbols: &[Symbol], name: &[u8]) -> bool
    ensures { result ≡ list_any (λ (t : Symbol). bytes_eq name.now t.name) symbols.now }
{
    symbols.iter().any(|symbol| name == symbol.name.as_slice())
}

/// The same without memory, by comparing each name with those behind it.
pub fn have_own_names(symbols: &[Symbol]) -> bool
    ensures { result ≡ names_differ symbols.now }
{
    for (i, symbol) in symbols.iter().enumerate() {
        if has_name(&symbols[i + 1..], symbol.name.as_slice()) {
            return false;
        }
    }
    true
}
