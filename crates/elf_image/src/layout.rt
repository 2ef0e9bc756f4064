// Where the parts of an image's file lie.

/// A run of bytes of the file. One of size 0 has no byte, wherever it lies.
#[derive(Clone, Copy)]
pub struct Part {
    /// The offset of its first byte.
    pub offset: u64,
    /// How many bytes it has.
    pub size: u64,
}

/// What the headers of a file say: the parts behind them, and the sizes of the memories.
#[derive(Clone, Copy)]
pub struct Layout {
    /// The offset of the section headers.
    pub sections: u64,
    pub text: Part,
    pub statics: Part,
    /// The functions that stand as values, 16 bytes each.
    pub entries: Part,
    /// Bytes of the region.
    pub memory: u64,
    /// Bytes of the private memory beyond the entries.
    pub private: u64,
    pub terra: Part,
    pub symtab: Part,
    pub strtab: Part,
}
