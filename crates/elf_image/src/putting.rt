// Adding numbers to a file.

ghost use Rattle.std.specs.Prelude.{◌≡◌, ◌++◌, map, OnOk};
ghost use Rattle.byteorder.specs.Endian.{little_bytes};
ghost use Rattle.elf_image.specs.Written.{numbers, words_bytes};
ghost use Rattle.elf_image.specs.Answers.{row_of};

use byteorder::{ByteOrder, LittleEndian};
use std::alloc::AllocError;

/// A number of a file, in as many bytes as its type has.
#[derive(Clone, Copy)]
pub enum Number {
    U8(u8),
    U16(u16),
    U32(u32),
    U64(u64),
}

fn put_u16(out: &mut Vec<u8>, number: u16) -> Result<(), AllocError>
    ensures { OnOk result (out.new.items ≡ out.old.items ++ little_bytes 2 number) }
{
    let mut bytes = [0; 2];
    LittleEndian::write_u16(&mut bytes, number);
    out.extend_from_slice(&bytes)?;
    Ok(())
}

fn put_u32(out: &mut Vec<u8>, number: u32) -> Result<(), AllocError>
    ensures { OnOk result (out.new.items ≡ out.old.items ++ little_bytes 4 number) }
{
    let mut bytes = [0; 4];
    LittleEndian::write_u32(&mut bytes, number);
    out.extend_from_slice(&bytes)?;
    Ok(())
}

fn put_u64(out: &mut Vec<u8>, number: u64) -> Result<(), AllocError>
    ensures { OnOk result (out.new.items ≡ out.old.items ++ little_bytes 8 number) }
{
    let mut bytes = [0; 8];
    LittleEndian::write_u64(&mut bytes, number);
    out.extend_from_slice(&bytes)?;
    Ok(())
}

fn put_number(out: &mut Vec<u8>, number: Number) -> Result<(), AllocError>
    ensures { OnOk result (out.new.items ≡ out.old.items ++ little_bytes (row_of number).0 (row_of number).1) }
{
    match number {
        Number::U8(byte) => {
            out.push(byte)?;
            Ok(())
        }
        Number::U16(number) => put_u16(out, number),
        Number::U32(number) => put_u32(out, number),
        Number::U64(number) => put_u64(out, number),
    }
}

/// Adds the numbers, the lowest byte of each first.
pub fn put_numbers(out: &mut Vec<u8>, list: &[Number]) -> Result<(), AllocError>
    ensures { OnOk result (out.new.items ≡ out.old.items ++ numbers (map row_of list.now)) }
{
    for number in list {
        put_number(out, *number)?;
    }
    Ok(())
}

/// Adds the words, the lowest byte of each first.
pub fn put_words(out: &mut Vec<u8>, words: &[u32]) -> Result<(), AllocError>
    ensures { OnOk result (out.new.items ≡ out.old.items ++ words_bytes words.now) }
{
    for word in words {
        put_u32(out, *word)?;
    }
    Ok(())
}
