// What waits in a check.

use check_model::ReachedList;
use tl_base::FnId;

/// What waits in a check: for the body of this function, which was taken from this place of the queue.
#[derive(Drop)]
pub struct CheckFrame {
    pub queue: ReachedList,
    pub place: u64,
    pub function: FnId,
}
