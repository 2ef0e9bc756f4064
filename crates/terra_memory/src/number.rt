// Numbers in slices of bytes, the lowest byte first.

ghost use Rattle.std.specs.Prelude.{◌≡◌, ◌+◌, ◌*◌, ◌^◌, ◌<◌, ◌≤◌, length, IsTrue};
ghost use Rattle.terra_memory.specs.Numbers.{is_access_size, number_of, low_bytes, part, overwritten};

/// The number in the `size` bytes from offset `at` on, the lowest byte first. The size is 1, 2, 4 or 8.
#[inline]
pub fn number_at(bytes: &[u8], at: usize, size: u64) -> u64
    requires access { IsTrue (is_access_size size) }
    requires inside { at + size ≤ length bytes.now }
    ensures value { result ≡ number_of (part bytes.now at size) }
    ensures fits { result < 2 ^ (8 * size) }
{
    match size {
        1 => u64::from(bytes[at]),
        2 => u64::from(u16::from_le_bytes([bytes[at], bytes[at + 1]])),
        4 => u64::from(u32::from_le_bytes([
            bytes[at],
            bytes[at + 1],
            bytes[at + 2],
            bytes[at + 3],
        ])),
        _ => u64::from_le_bytes([
            bytes[at],
            bytes[at + 1],
            bytes[at + 2],
            bytes[at + 3],
            bytes[at + 4],
            bytes[at + 5],
            bytes[at + 6],
            bytes[at + 7],
        ]),
    }
}

/// Writes the lowest `size` bytes of a number over those from offset `at` on, the lowest byte first. The size is 1, 2, 4 or 8.
#[inline]
pub fn put_number(bytes: &mut [u8], at: usize, size: u64, value: u64)
    requires access { IsTrue (is_access_size size) }
    requires inside { at + size ≤ length bytes.old }
    ensures { bytes.new ≡ overwritten bytes.old at (low_bytes size value) }
{
    match size {
        1 => bytes[at] = (value % (1 << 8)) as u8,
        2 => bytes[at..at + 2].copy_from_slice(&((value % (1 << 16)) as u16).to_le_bytes()),
        4 => bytes[at..at + 4].copy_from_slice(&((value % (1 << 32)) as u32).to_le_bytes()),
        _ => bytes[at..at + 8].copy_from_slice(&value.to_le_bytes()),
    }
}
