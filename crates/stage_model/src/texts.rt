// What is written of a staging.

use crate::staging::End;
use tl_base::Bytes;

/// What is written of a staging: what was printed, how it ended, and lines of what it came to.
#[derive(Drop)]
pub struct Written {
    pub printed: Bytes,
    pub end: End,
    pub lines: Bytes,
}
