// What is made of bytes at once: a source with its locals renamed, the listing of an image, or the image of lines of instructions.

ghost use Rattle.std.specs.Prelude.{◌≡◌, ◌≤◌, ◌*◌, ◌<◌, ◌^◌, ℕ, length, slice_index, IfOk};
ghost use Rattle.elf_image.specs.Lawful.{IsLawful};
ghost use Rattle.rv_listing.specs.Listing.{Listing};
ghost use Rattle.elf_image.specs.Written.{bytes_of};
ghost use Rattle.terrac_call.specs.Due.{IsReadingDue, IsTextReadAs, Reading, given};
ghost use Rattle.terrac_call.specs.Rename.{IsRenameDue, IsTreeDue};
ghost use Rattle.terrac_call.specs.Listed.{IsListDue};
ghost use Rattle.terrac_call.specs.Assembled.{IsAssemblyDue, assembled};
ghost use Rattle.terrac_call.specs.Making.{IsMakingDue};
ghost use Rattle.terrac_call.specs.Ranges.{IsLawfulMaking};
ghost use Rattle.terrac_call.specs.Words.{Assemble};
ghost use Rattle.terrac_call.specs.DueView.{shown_due};
ghost use Rattle.terrac_call.specs.JobView.{shown_making};

use crate::due::{Due, Line};
use crate::exec::refused_due;
use crate::lines::{bad_assembly_due, bad_image_due, syntax_due};
use crate::parsing::{NOWHERE, source_text};
use crate::status::{ImageFault, Status};
use crate::words::Making;
use elf_image::{Image, LONGEST_IMAGE, Symbol, Words, read, write};
use rv_listing::{AsmFault, assemble, listing, loaded_texts_are_short};
use std::alloc::Global;
use tl_base::limits::{REGION_ADDRESS, TEXT_ADDRESS};
use tl_base::{Bytes, Limits, List, NoMemory};
use tl_lex::{LONGEST_TEXT, SyntaxKind};
use tl_parse::SyntaxError;
use tl_renaming::rename;

/// What is due for what is made of these bytes.
pub(crate) fn make(alloc: Global, what: Making<'_>, bytes: &[u8]) -> Result<Due, NoMemory>
    requires { IsLawfulMaking (shown_making what) }
    ensures { IfOk result (λ due. IsMakingDue (shown_making what.entry) bytes.now (shown_due due)) }
{
    match what {
        Making::Rename => rename_source(alloc, bytes),
        Making::ListImage => list_image(alloc, bytes),
        Making::Assemble { entry, memory } => assemble_source(alloc, entry, memory, bytes),
    }
}

/// What is due for the bytes of a source whose locals are renamed.
fn rename_source(alloc: Global, bytes: &[u8]) -> Result<Due, NoMemory>
    ensures { IfOk result (λ due. IsRenameDue bytes.now (shown_due due)) }
{
    match source_text(bytes) {
        Ok(text) => rename_text(alloc, text),
        Err(kind) => syntax_due(alloc, kind, NOWHERE),
    }
}

/// What is due for a text whose locals are renamed.
fn rename_text(alloc: Global, text: &str) -> Result<Due, NoMemory>
    requires { length text.now ≤ LONGEST_TEXT }
    ensures { IfOk result (λ due. (reading : Reading) × IsTextReadAs text.now reading
        × IsReadingDue (IsTreeDue text.now) reading (shown_due due)) }
{
    match rename(alloc, text) {
        Ok(other) => Ok(Due {
            status: Status::Ok,
            line: Line::Made(other),
        }),
        Err(SyntaxError::Refused { kind, place }) => syntax_due(alloc, kind, place),
        Err(SyntaxError::NoMemory) => Err(NoMemory),
    }
}

/// What is due for bytes that are listed.
fn list_image(alloc: Global, bytes: &[u8]) -> Result<Due, NoMemory>
    ensures { IfOk result (λ due. IsListDue bytes.now (shown_due due)) }
{
    if bytes.len() > LONGEST_IMAGE {
        return bad_image_due(alloc, ImageFault::TooLong);
    }
    // The text is no longer than the file.
    loaded_texts_are_short();
    match read(alloc, bytes) {
        Ok(image) => listing_due(alloc, &image),
        Err(error) => refused_due(alloc, error),
    }
}

/// The listing of an image.
fn listing_due(alloc: Global, image: &Image) -> Result<Due, NoMemory>
    requires lawful { IsLawful image.now }
    requires short { 4 * length image.now.text ≤ LONGEST_IMAGE }
    ensures { IfOk result (λ due. (lines : List ℕ) × Listing image.now lines × (shown_due due ≡ given lines)) }
{
    Ok(Due {
        status: Status::Ok,
        line: Line::Bytes(listing(alloc, image)?),
    })
}

/// What is due for lines of instructions, by the name of the function and how many KiB of memory its image has.
fn assemble_source(alloc: Global, entry: &str, memory: u64, bytes: &[u8]) -> Result<Due, NoMemory>
    requires { IsLawfulMaking (Assemble entry.now memory) }
    ensures { IfOk result (λ due. IsAssemblyDue entry.now memory bytes.now (shown_due due)) }
{
    if bytes.len() > LONGEST_TEXT {
        return syntax_due(alloc, SyntaxKind::TooLong, NOWHERE);
    }
    match assemble(alloc, bytes) {
        Ok(words) => image_due(alloc, entry, memory, words),
        Err(AsmFault::Refused { kind, line }) => bad_assembly_due(alloc, kind, line),
        Err(AsmFault::NoMemory) => Err(NoMemory),
    }
}

/// The file of the image of these words.
fn image_due(alloc: Global, entry: &str, memory: u64, words: Words) -> Result<Due, NoMemory>
    requires lawful { IsLawfulMaking (Assemble entry.now memory) }
    requires some { 0 < length words }
    requires few { length words ≤ LONGEST_TEXT }
    ensures { IfOk result (λ due. shown_due due ≡ given (bytes_of (assembled entry.now memory words))) }
{
    words_fit(words.as_slice());
    let image = assembled(alloc, entry, memory, words)?;
    Ok(Due {
        status: Status::Ok,
        line: Line::Bytes(Bytes::from_vec(write(alloc, &image)?)),
    })
}

// The words have 32 bits each.
fn words_fit(words: &[u32])
    ensures { (k : ℕ) → slice_index words.now k < 2 ^ 32 }
{
    let _ = words;
}

/// The image of these words.
fn assembled(alloc: Global, entry: &str, memory: u64, words: Words) -> Result<Image, NoMemory>
    requires { memory ≤ 65536 }
    ensures { IfOk result (λ image. image ≡ assembled entry.now memory words) }
{
    let name = Bytes::from_slice(alloc, entry.as_bytes())?;
    let mut exports = List::new(alloc);
    exports.push(Symbol {
        name,
        address: TEXT_ADDRESS,
        params: Bytes::new(alloc),
        result: 4,
    })?;
    Ok(Image {
        text: words,
        statics: Bytes::new(alloc),
        entries: List::new(alloc),
        memory: memory * Limits::MEMORY_UNIT,
        heap: REGION_ADDRESS,
        private: 8192,
        exports,
    })
}
