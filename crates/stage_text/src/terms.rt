// The text that `terms` writes.

ghost use Rattle.std.specs.Prelude.{◌≡◌, ◌++◌, [], IfOk, OnOk};
ghost use Rattle.stage_text.specs.Terms.{export_line, is_exported, term_line, term_lines, terms_text};

use std::alloc::Global;
use terra_term::{Export, Store, term_text};
use tl_base::{Bytes, FnId, NoMemory};

/// A line for each export in order, and then a line with the term of each exported function, once, in order of first export.
pub fn terms_text(store: &Store, exports: &[Export]) -> Result<Bytes, NoMemory>
    ensures { IfOk result (λ text. text ≡ terms_text store.now exports.now) }
{
    let mut out = Bytes::new(store.allocator());
    for export in exports {
        push_export(store.allocator(), &mut out, export)?;
    }
    push_terms(store, &mut out, exports)?;
    Ok(out)
}

/// Writes the line of an export.
fn push_export(alloc: Global, out: &mut Bytes, export: &Export) -> Result<(), NoMemory>
    ensures { OnOk result (out.new ≡ out.old ++ export_line export.now) }
{
    out.push_all(b"export ")?;
    out.push_all(export.name.bytes())?;
    let number = u128::from(export.function.0) + 1;
    let name = format!(in alloc; " = f{number}\n")?;
    out.push_all(name.as_bytes())
}

/// Writes the terms of exported functions, each once.
fn push_terms(store: &Store, out: &mut Bytes, exports: &[Export]) -> Result<(), NoMemory>
    ensures { OnOk result (out.new ≡ out.old ++ term_lines store.now [] exports.now) }
{
    for place in 0..exports.len() {
        push_term(store, out, &exports[..place], exports[place].function)?;
    }
    Ok(())
}

/// Writes the term of a function, but where it was exported before.
fn push_term(store: &Store, out: &mut Bytes, before: &[Export], f: FnId) -> Result<(), NoMemory>
    ensures { OnOk result (out.new ≡ out.old ++ term_line store.now before.now f) }
{
    if is_exported(before, f) {
        return Ok(());
    }
    out.push_all(term_text(store, f)?.as_slice())?;
    out.push_all(b"\n")
}

fn is_exported(exports: &[Export], f: FnId) -> bool
    ensures { result ≡ is_exported exports.now f }
{
    exports.iter().any(|export| export.function.0 == f.0)
}
