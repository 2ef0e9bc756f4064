// Where temporaries stand.

use tl_base::List;

/// Where a temporary stands in machine code: in one of the registers that calls keep, by its number, or in a slot of
/// the frame, which holds a word.
#[derive(Clone, Copy, PartialEq, Eq)]
pub enum Home {
    Register(u64),
    Slot(u64),
}

/// The homes of temporaries by their numbers.
pub type Assignment = List<Option<Home>>;
