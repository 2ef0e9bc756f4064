// Reading numbers of a file, and testing fields by their rules.

ghost use Rattle.std.specs.Prelude.{◌≡◌, ◌+◌, ◌<◌, ◌≤◌, length};
ghost use Rattle.elf_image.specs.Fields.{number_at, field, bad_field, bad_bytes};
ghost use Rattle.elf_image.specs.Answers.{Says};

use crate::error::ImageError;
use crate::rule::Rule;
use byteorder::{ByteOrder, LittleEndian};

pub fn u8_at(bytes: &[u8], at: usize) -> u8
    requires { at + 1 ≤ length bytes.now }
    ensures { result ≡ number_at 1 bytes.now at }
{
    bytes[at]
}

pub fn u16_at(bytes: &[u8], at: usize) -> u16
    requires { at + 2 ≤ length bytes.now }
    ensures { result ≡ number_at 2 bytes.now at }
{
    LittleEndian::read_u16(&bytes[at..])
}

pub fn u32_at(bytes: &[u8], at: usize) -> u32
    requires { at + 4 ≤ length bytes.now }
    ensures { result ≡ number_at 4 bytes.now at }
{
    LittleEndian::read_u32(&bytes[at..])
}

pub fn u64_at(bytes: &[u8], at: usize) -> u64
    requires { at + 8 ≤ length bytes.now }
    ensures { result ≡ number_at 8 bytes.now at }
{
    LittleEndian::read_u64(&bytes[at..])
}

/// Tests the field of one byte at `offset` in the table at `base`.
#[tactic(auto, unfolding(crate::specs::Fields::bad_field))]
pub fn check_u8(bytes: &[u8], base: usize, offset: usize, rule: Rule) -> Result<(), ImageError>
    requires { base + offset + 1 ≤ length bytes.now }
    ensures { Says result (bad_field bytes.now base (field offset 1 rule)) }
{
    if rule.allows(u64::from(u8_at(bytes, base + offset))) {
        Ok(())
    } else {
        Err(ImageError::BadField((base + offset) as u64))
    }
}

/// Tests the field of two bytes at `offset` in the table at `base`.
#[tactic(auto, unfolding(crate::specs::Fields::bad_field))]
pub fn check_u16(bytes: &[u8], base: usize, offset: usize, rule: Rule) -> Result<(), ImageError>
    requires { base + offset + 2 ≤ length bytes.now }
    ensures { Says result (bad_field bytes.now base (field offset 2 rule)) }
{
    if rule.allows(u64::from(u16_at(bytes, base + offset))) {
        Ok(())
    } else {
        Err(ImageError::BadField((base + offset) as u64))
    }
}

/// Tests the field of four bytes at `offset` in the table at `base`.
#[tactic(auto, unfolding(crate::specs::Fields::bad_field))]
pub fn check_u32(bytes: &[u8], base: usize, offset: usize, rule: Rule) -> Result<(), ImageError>
    requires { base + offset + 4 ≤ length bytes.now }
    ensures { Says result (bad_field bytes.now base (field offset 4 rule)) }
{
    if rule.allows(u64::from(u32_at(bytes, base + offset))) {
        Ok(())
    } else {
        Err(ImageError::BadField((base + offset) as u64))
    }
}

/// Tests the field of eight bytes at `offset` in the table at `base`.
#[tactic(auto, unfolding(crate::specs::Fields::bad_field))]
pub fn check_u64(bytes: &[u8], base: usize, offset: usize, rule: Rule) -> Result<(), ImageError>
    requires { base + offset + 8 ≤ length bytes.now }
    ensures { Says result (bad_field bytes.now base (field offset 8 rule)) }
{
    if rule.allows(u64_at(bytes, base + offset)) {
        Ok(())
    } else {
        Err(ImageError::BadField((base + offset) as u64))
    }
}

/// Tests the field of these bytes at `offset` in the table at `base`.
#[tactic(auto, unfolding(crate::specs::Fields::bad_bytes))]
pub fn check_bytes(
    bytes: &[u8],
    base: usize,
    offset: usize,
    wanted: &[u8],
) -> Result<(), ImageError>
    requires { base + offset + length wanted.now ≤ length bytes.now }
    ensures { Says result (bad_bytes bytes.now base offset wanted.now) }
{
    let at = base + offset;
    if &bytes[at..at + wanted.len()] == wanted {
        Ok(())
    } else {
        Err(ImageError::BadField(at as u64))
    }
}
