// The header, the program headers and the section headers of a file.

ghost use Rattle.std.specs.Prelude.{◌≡◌, ◌+◌, ◌≤◌, length, IfOk};
ghost use Rattle.elf_image.specs.Fields.{u64_at, bad_fields};
ghost use Rattle.elf_image.specs.Layout.{layout_of, part_at, identification_fields, segment_fields};
ghost use Rattle.elf_image.specs.Tests.{bad_header, bad_segments, bad_sections, verdict_headers};
ghost use Rattle.elf_image.specs.Answers.{Says, section_rows};

use crate::error::ImageError;
use crate::fields::{check_u8, check_u16, check_u32, check_u64, u32_at, u64_at};
use crate::layout::{Layout, Part};
use crate::parts::is_within;
use crate::rule::Rule;
use tl_base::Limits;
use tl_base::limits::{MAX_ENTRIES, MAX_PRIVATE, PRIVATE_ADDRESS, REGION_ADDRESS, TEXT_ADDRESS};

// The four bytes 7F 45 4C 46.
pub const MAGIC: u32 = 0x464C_457F;

const HEADER_SIZE: usize = 64;
// Three program headers of 56 bytes stand right behind the header: of the text, the region and private memory.
const HEADERS_SIZE: usize = 232;

const TEXT_HEADER: usize = 64;

const REGION_HEADER: usize = 120;

const PRIVATE_HEADER: usize = 176;
// Six section headers of 64 bytes.
const SECTIONS_SIZE: u64 = 384;

// The fields of the header, Elf64_Ehdr, behind e_ident.
const E_TYPE: usize = 16;

const E_MACHINE: usize = 18;

const E_VERSION: usize = 20;

const E_ENTRY: usize = 24;

const E_PHOFF: usize = 32;

const E_SHOFF: usize = 40;

const E_FLAGS: usize = 48;

const E_EHSIZE: usize = 52;

const E_PHENTSIZE: usize = 54;

const E_PHNUM: usize = 56;

const E_SHENTSIZE: usize = 58;

const E_SHNUM: usize = 60;

const E_SHSTRNDX: usize = 62;

const ET_EXEC: u64 = 2;

const EM_RISCV: u64 = 243;

const EV_CURRENT: u64 = 1;

// The fields of a program header, Elf64_Phdr.
const P_TYPE: usize = 0;

const P_FLAGS: usize = 4;

const P_OFFSET: usize = 8;

const P_VADDR: usize = 16;

const P_PADDR: usize = 24;

const P_FILESZ: usize = 32;

const P_MEMSZ: usize = 40;

const P_ALIGN: usize = 48;

const PT_LOAD: u64 = 1;
// PF_R with PF_X, and PF_R with PF_W.
const READ_EXECUTE: u32 = 5;

const READ_WRITE: u32 = 6;

/// The fields of a section header that do not depend on the file.
#[derive(Clone, Copy)]
pub struct Section {
    pub name: u32,
    pub kind: u32,
    pub flags: u64,
    pub address: u64,
    pub link: u32,
    pub info: u32,
    pub align: u64,
    pub entry_size: u64,
}

#[tactic(auto, unfolding(crate::specs::Tests::bad_header))]
fn check_header(bytes: &[u8]) -> Result<(), ImageError>
    requires { 64 ≤ length bytes.now }
    ensures { Says result (bad_header bytes.now) }
{
    check_identification(bytes)?;
    check_u16(bytes, 0, E_TYPE, Rule::Is(ET_EXEC))?;
    check_u16(bytes, 0, E_MACHINE, Rule::Is(EM_RISCV))?;
    check_u32(bytes, 0, E_VERSION, Rule::Is(EV_CURRENT))?;
    check_u64(bytes, 0, E_ENTRY, Rule::Is(0))?;
    check_u64(bytes, 0, E_PHOFF, Rule::Is(64))?;
    check_u64(bytes, 0, E_SHOFF, Rule::Any)?;
    check_u32(bytes, 0, E_FLAGS, Rule::Is(0))?;
    check_u16(bytes, 0, E_EHSIZE, Rule::Is(64))?;
    check_u16(bytes, 0, E_PHENTSIZE, Rule::Is(56))?;
    check_u16(bytes, 0, E_PHNUM, Rule::Is(3))?;
    check_u16(bytes, 0, E_SHENTSIZE, Rule::Is(64))?;
    check_u16(bytes, 0, E_SHNUM, Rule::Is(6))?;
    check_u16(bytes, 0, E_SHSTRNDX, Rule::Is(5))
}

fn check_identification(bytes: &[u8]) -> Result<(), ImageError>
    requires { 64 ≤ length bytes.now }
    ensures { Says result (bad_fields bytes.now 0 identification_fields) }
{
    check_u8(bytes, 0, 4, Rule::Is(2))?;
    check_u8(bytes, 0, 5, Rule::Is(1))?;
    check_u8(bytes, 0, 6, Rule::Is(1))?;
    check_u8(bytes, 0, 7, Rule::Is(0))?;
    check_u8(bytes, 0, 8, Rule::Is(0))?;
    check_u8(bytes, 0, 9, Rule::Is(0))?;
    check_u8(bytes, 0, 10, Rule::Is(0))?;
    check_u8(bytes, 0, 11, Rule::Is(0))?;
    check_u8(bytes, 0, 12, Rule::Is(0))?;
    check_u8(bytes, 0, 13, Rule::Is(0))?;
    check_u8(bytes, 0, 14, Rule::Is(0))?;
    check_u8(bytes, 0, 15, Rule::Is(0))
}

/// Tests the program header at `header`, whose segment has these flags and this address, and sizes by these rules in the file
/// and in memory.
fn check_segment(
    bytes: &[u8],
    header: usize,
    flags: u32,
    address: u64,
    in_file: Rule,
    in_memory: Rule,
) -> Result<(), ImageError>
    requires { header + 56 ≤ length bytes.now }
    ensures { Says result (bad_fields bytes.now header (segment_fields flags address in_file in_memory)) }
{
    check_u32(bytes, header, P_TYPE, Rule::Is(PT_LOAD))?;
    check_u32(bytes, header, P_FLAGS, Rule::Is(u64::from(flags)))?;
    check_u64(bytes, header, P_OFFSET, Rule::Any)?;
    check_u64(bytes, header, P_VADDR, Rule::Is(address))?;
    check_u64(bytes, header, P_PADDR, Rule::Is(address))?;
    check_u64(bytes, header, P_FILESZ, in_file)?;
    check_u64(bytes, header, P_MEMSZ, in_memory)?;
    check_u64(bytes, header, P_ALIGN, Rule::Is(1))
}

#[tactic(auto, unfolding(crate::specs::Tests::bad_segments))]
fn check_segments(bytes: &[u8]) -> Result<(), ImageError>
    requires { 232 ≤ length bytes.now }
    ensures { Says result (bad_segments bytes.now) }
{
    let text_size = u64_at(bytes, TEXT_HEADER + P_FILESZ);
    let memory = u64_at(bytes, REGION_HEADER + P_MEMSZ);
    let entries = u64_at(bytes, PRIVATE_HEADER + P_FILESZ);
    check_segment(
        bytes,
        TEXT_HEADER,
        READ_EXECUTE,
        TEXT_ADDRESS,
        Rule::Multiple(4, 0, u64::MAX),
        Rule::Is(text_size),
    )?;
    check_segment(
        bytes,
        REGION_HEADER,
        READ_WRITE,
        REGION_ADDRESS,
        Rule::Between(0, memory / 2),
        Rule::Multiple(Limits::MEMORY_UNIT, Limits::MIN_MEMORY, Limits::MAX_MEMORY),
    )?;
    check_segment(
        bytes,
        PRIVATE_HEADER,
        READ_WRITE,
        PRIVATE_ADDRESS,
        Rule::Multiple(16, 0, 16 * MAX_ENTRIES),
        Rule::Beyond(entries, 512, MAX_PRIVATE),
    )
}

/// Tests the section header at `header`. Its section has this place, where that is known.
fn check_section(
    bytes: &[u8],
    header: usize,
    section: Section,
    place: Option<Part>,
) -> Result<(), ImageError>
    requires { header + 64 ≤ length bytes.now }
    ensures { Says result (bad_fields bytes.now header (section_rows section place)) }
{
    let (offset, size) = match place {
        Some(part) => (Rule::Is(part.offset), Rule::Is(part.size)),
        None => (Rule::Any, Rule::Any),
    };
    check_u32(bytes, header, 0, Rule::Is(u64::from(section.name)))?;
    check_u32(bytes, header, 4, Rule::Is(u64::from(section.kind)))?;
    check_u64(bytes, header, 8, Rule::Is(section.flags))?;
    check_u64(bytes, header, 16, Rule::Is(section.address))?;
    check_u64(bytes, header, 24, offset)?;
    check_u64(bytes, header, 32, size)?;
    check_u32(bytes, header, 40, Rule::Is(u64::from(section.link)))?;
    check_u32(bytes, header, 44, Rule::Is(u64::from(section.info)))?;
    check_u64(bytes, header, 48, Rule::Is(section.align))?;
    check_u64(bytes, header, 56, Rule::Is(section.entry_size))
}

pub const NULL: Section = Section {
    name: 0,
    kind: 0,
    flags: 0,
    address: 0,
    link: 0,
    info: 0,
    align: 0,
    entry_size: 0,
};

pub const TEXT: Section = Section {
    name: 1,
    kind: 1,
    flags: 6,
    address: TEXT_ADDRESS,
    link: 0,
    info: 0,
    align: 1,
    entry_size: 0,
};

pub const DATA: Section = Section {
    name: 7,
    kind: 1,
    flags: 3,
    address: REGION_ADDRESS,
    link: 0,
    info: 0,
    align: 1,
    entry_size: 0,
};

pub const TERRA: Section = Section {
    name: 13,
    kind: 1,
    flags: 0,
    address: 0,
    link: 0,
    info: 0,
    align: 1,
    entry_size: 0,
};

pub const SYMTAB: Section = Section {
    name: 20,
    kind: 2,
    flags: 0,
    address: 0,
    link: 5,
    info: 1,
    align: 1,
    entry_size: 24,
};

pub const STRTAB: Section = Section {
    name: 28,
    kind: 3,
    flags: 0,
    address: 0,
    link: 0,
    info: 0,
    align: 1,
    entry_size: 0,
};

#[tactic(auto, unfolding(crate::specs::Tests::bad_sections))]
fn check_sections(bytes: &[u8], layout: &Layout) -> Result<(), ImageError>
    requires { layout.now.sections + 384 ≤ length bytes.now }
    ensures { Says result (bad_sections layout.now bytes.now) }
{
    let table = layout.sections as usize;
    let nothing = Part { offset: 0, size: 0 };
    check_section(bytes, table, NULL, Some(nothing))?;
    check_section(bytes, table + 64, TEXT, Some(layout.text))?;
    check_section(bytes, table + 128, DATA, Some(layout.statics))?;
    check_section(bytes, table + 192, TERRA, None)?;
    check_section(bytes, table + 256, SYMTAB, None)?;
    check_section(bytes, table + 320, STRTAB, None)
}

fn part_at(bytes: &[u8], offset: usize, size: usize) -> Part
    requires offset { offset + 8 ≤ length bytes.now }
    requires size { size + 8 ≤ length bytes.now }
    ensures { result ≡ part_at bytes.now offset size }
{
    Part {
        offset: u64_at(bytes, offset),
        size: u64_at(bytes, size),
    }
}

// The part that the program header at `header` loads.
fn segment_at(bytes: &[u8], header: usize) -> Part
    requires { header + 56 ≤ length bytes.now }
    ensures { result ≡ part_at bytes.now (header + 8) (header + 32) }
{
    part_at(bytes, header + P_OFFSET, header + P_FILESZ)
}

#[tactic(auto, unfolding(crate::specs::Layout::layout_of))]
fn layout_with(bytes: &[u8], table: usize) -> Layout
    requires headers { 232 ≤ length bytes.now }
    requires sections { table + 384 ≤ length bytes.now }
    requires table { table ≡ u64_at bytes.now 40 }
    ensures { result ≡ layout_of bytes.now }
{
    let entries = segment_at(bytes, PRIVATE_HEADER);
    Layout {
        sections: table as u64,
        text: segment_at(bytes, TEXT_HEADER),
        statics: segment_at(bytes, REGION_HEADER),
        entries,
        memory: u64_at(bytes, REGION_HEADER + P_MEMSZ),
        private: u64_at(bytes, PRIVATE_HEADER + P_MEMSZ).saturating_sub(entries.size),
        terra: part_at(bytes, table + 216, table + 224),
        symtab: part_at(bytes, table + 280, table + 288),
        strtab: part_at(bytes, table + 344, table + 352),
    }
}

/// Tests the headers, and gives what they say.
#[tactic(auto, unfolding(crate::specs::Tests::verdict_headers, crate::specs::Layout::layout_of))]
pub fn read_layout(bytes: &[u8]) -> Result<Layout, ImageError>
    ensures says { Says result (verdict_headers bytes.now) }
    ensures layout { IfOk result (λ l. l ≡ layout_of bytes.now) }
{
    if bytes.len() < HEADER_SIZE {
        return Err(ImageError::Short);
    }
    if u32_at(bytes, 0) != MAGIC {
        return Err(ImageError::BadMagic);
    }
    check_header(bytes)?;
    if bytes.len() < HEADERS_SIZE {
        return Err(ImageError::Short);
    }
    check_segments(bytes)?;
    let table = Part {
        offset: u64_at(bytes, E_SHOFF),
        size: SECTIONS_SIZE,
    };
    if !is_within(table, bytes.len()) {
        return Err(ImageError::Short);
    }
    let layout = layout_with(bytes, table.offset as usize);
    check_sections(bytes, &layout)?;
    Ok(layout)
}
