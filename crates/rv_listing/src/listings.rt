// Listings of images.

ghost use Rattle.std.specs.Prelude.{◌≡◌, ◌++◌, ◌+◌, ◌*◌, ◌≤◌, ◌<◌, ◌^◌, ℕ, List, length, IfOk, OnOk};
ghost use Rattle.elf_image.specs.Lawful.{IsLawful};
ghost use Rattle.rv_listing.specs.Texts.{IsWordText};
ghost use Rattle.rv_listing.specs.Listing.{Listing, entry_line, entry_lines, word_line, AreWordLines};
ghost use Rattle.rv_listing.specs.Listing.{OneListing, LoadedTextsAreShort};

use crate::printing::{Line, hexadecimal, put, put_word};
use elf_image::{Image, Symbol};
use std::alloc::Global;
use tl_base::limits::TEXT_ADDRESS;
use tl_base::{Bytes, NoMemory};

/// The listing of an image: a line for each export, and a line for each word of text. Its one error is want of
/// memory. An image that [`elf_image::read`] gives has at most 268,435,456 bytes of text, so its addresses have eight
/// digits.
pub fn listing(alloc: Global, image: &Image) -> Result<Bytes, NoMemory>
    requires lawful { IsLawful image.now }
    requires short { 4 * length image.now.text ≤ 268435456 }
    ensures { IfOk result (λ lines. Listing image.now lines) }
{
    let mut out = Bytes::new(alloc);
    push_entries(&mut out, image.exports.as_slice())?;
    push_words(&mut out, image.text.as_slice())?;
    Ok(out)
}

/// The law of listings: an image has one.
pub fn one_listing()
    ensures { OneListing }
{}

/// The law of lengths: what [`elf_image::read`] gives for a file has no more bytes of text than the file.
pub fn loaded_texts_are_short()
    ensures { LoadedTextsAreShort }
{}

fn push_entries(out: &mut Bytes, exports: &[Symbol]) -> Result<(), NoMemory>
    ensures { OnOk result (out.new ≡ out.old ++ entry_lines exports.now) }
{
    for symbol in exports {
        push_entry(out, symbol)?;
    }
    Ok(())
}

fn push_entry(out: &mut Bytes, symbol: &Symbol) -> Result<(), NoMemory>
    ensures { OnOk result (out.new ≡ out.old ++ entry_line symbol.now) }
{
    out.push_all(b"entry ")?;
    out.push_all(symbol.name.as_slice())?;
    out.push_all(b" at ")?;
    out.push_all(&hexadecimal(symbol.address))?;
    out.push_all(b"\n")
}

fn push_words(out: &mut Bytes, words: &[u32]) -> Result<(), NoMemory>
    requires { 4 * length words.now ≤ 268435456 }
    ensures { OnOk result ((lines : List ℕ) × AreWordLines TEXT_ADDRESS words.now lines
        × (out.new ≡ out.old ++ lines)) }
{
    let mut address = TEXT_ADDRESS as u32;
    for word in words {
        push_word(out, address, *word)?;
        address += 4;
    }
    Ok(())
}

fn push_word(out: &mut Bytes, address: u32, word: u32) -> Result<(), NoMemory>
    ensures { OnOk result ((text : List ℕ) × IsWordText word text
        × (out.new ≡ out.old ++ word_line address word text)) }
{
    let mut line = Line::new();
    put(&mut line, &hexadecimal(u64::from(address)));
    put(&mut line, b": ");
    put(&mut line, &hexadecimal(u64::from(word)));
    put(&mut line, b" ");
    put_word(&mut line, word);
    put(&mut line, b"\n");
    out.push_all(line.as_slice())
}
