// What selection gives.

use tl_base::FnId;

/// A call in a function's code: the number of the first of the two words of its jump, and the function that is called. The
/// jump goes to address 0 from where the code begins at address 0, and is to be written again once both are placed.
#[derive(Clone, Copy, PartialEq, Eq)]
pub struct Call {
    pub at: u64,
    pub callee: FnId,
}

/// The code of a function.
#[derive(Drop)]
pub struct Code {
    pub words: Vec<u32>,
    pub calls: Vec<Call>,
    /// The number of the word at which calls enter the function, behind those by which it begins as the entry.
    pub entry: u64,
    /// The bytes of an activation's frame in private memory.
    pub frame: u64,
}
