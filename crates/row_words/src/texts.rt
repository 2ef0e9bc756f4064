// Bytes, as rows write and show them.

use crate::numbers::digit_of;
use std::alloc::Global;
use tl_base::NoMemory;

/// The bytes that a word writes by two hexadecimal digits each; `-` writes none.
pub fn hexadecimal_bytes(alloc: Global, word: &str) -> Result<Vec<u8>, NoMemory> {
    let mut bytes = Vec::new(alloc);
    let mut high: Option<u8> = None;
    for digit in word.as_bytes() {
        let value = digit_of(*digit);
        match high {
            Some(first) => {
                bytes.push((first << 4) | value)?;
                high = None;
            }
            None => high = Some(value),
        }
    }
    Ok(bytes)
}

/// The bytes of a text in which a percent sign and two hexadecimal digits stand for a byte.
pub fn unescaped(alloc: Global, written: &str) -> Result<Vec<u8>, NoMemory> {
    let mut bytes = Vec::new(alloc);
    let mut digits = 0u8;
    let mut value = 0u8;
    for byte in written.as_bytes() {
        if digits > 0 {
            value = (value << 4) | digit_of(*byte);
            digits -= 1;
            if digits == 0 {
                bytes.push(value)?;
            }
        } else if *byte == b'%' {
            digits = 2;
        } else {
            bytes.push(*byte)?;
        }
    }
    Ok(bytes)
}

/// Bytes as a row shows them: those from the least one to the tilde stand for themselves, all but the percent sign, and each other by a
/// percent sign and its digits.
pub fn escaped(alloc: Global, bytes: &[u8], least: u8) -> Result<String, NoMemory> {
    let mut text = String::new(alloc);
    for byte in bytes {
        if *byte >= least && *byte < 127 && *byte != b'%' {
            text.push(char::from(*byte))?;
        } else {
            let part = format!(in alloc; "%{byte:02x}")?;
            text.push_str(&part)?;
        }
    }
    Ok(text)
}
