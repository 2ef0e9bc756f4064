// Sizes and alignments.

/// The most bytes that a type has.
pub const LARGEST_SIZE: u64 = 67_108_864;

/// How many bytes a type has, and what its addresses are multiples of.
#[derive(Clone, Copy, PartialEq, Eq)]
pub struct Measure {
    pub size: u64,
    pub align: u64,
}
