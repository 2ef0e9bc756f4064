// The queue of a check.

ghost use Rattle.std.specs.Prelude.{◌≡◌, [], ◌∷◌, OnOk};
ghost use Rattle.check_model.specs.Checks.{with_mentions};

use check_model::{Reached, ReachedList};
use tl_base::{FnId, NoMemory, Place};

/// Puts a function that another mentions behind the others, unless it was reached before.
pub fn reach(queue: &mut ReachedList, function: FnId, at: Place, by: FnId) -> Result<(), NoMemory>
    ensures { OnOk result (queue.new ≡ with_mentions queue.old by ((at, function) ∷ [])) }
{
    if queue.was_reached(function) {
        return Ok(());
    }
    queue.push(Reached {
        function,
        by: Some((at, by)),
    })
}
