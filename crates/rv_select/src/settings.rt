// What the code of a block's end depends on besides its exit: how long its function is, and what stands behind it.

ghost use Rattle.std.specs.Prelude.{◌≡◌};
ghost use Rattle.rv_select.specs.Settings.{falls, follower, is_next, next_of, setting_of};

use tac_form::Edge;

/// Whether a function is near and whether it is short, how many blocks it has, whether it makes calls, and whether it counts.
#[derive(Clone, Copy, PartialEq, Eq)]
pub struct Extent {
    pub near: bool,
    pub short: bool,
    pub blocks: u64,
    pub calls: bool,
    pub counts: bool,
}

/// Where a block's end stands: whether in a near or a short function, and in one that counts, and before which block. Behind the last
/// block stands the code that leaves the function.
#[derive(Clone, Copy, PartialEq, Eq)]
pub struct Setting {
    pub near: bool,
    pub short: bool,
    pub next: Option<u64>,
    pub counts: bool,
}

/// Which of a branch's blocks stands behind it.
#[derive(Clone, Copy, PartialEq, Eq)]
pub enum Follows {
    Neither,
    First,
    Second,
}

/// Which block stands behind one that so many of all follow.
fn next_of(blocks: u64, rest: u64) -> Option<u64>
    ensures { result ≡ next_of blocks rest }
{
    if rest == 0 {
        None
    } else {
        Some(blocks.saturating_sub(rest))
    }
}

/// Where the end of a block stands that so many follow.
pub(crate) fn setting_of(extent: Extent, rest: u64) -> Setting
    ensures { result ≡ setting_of extent rest }
{
    Setting {
        near: extent.near,
        short: extent.short,
        next: next_of(extent.blocks, rest),
        counts: extent.counts,
    }
}

fn is_next(next: Option<u64>, block: u64) -> bool
    ensures { result ≡ is_next next block }
{
    match next {
        Some(number) => number == block,
        None => false,
    }
}

/// Whether an edge leads on without a step: it takes no count, and its block stands behind.
pub(crate) fn falls(next: Option<u64>, edge: Edge) -> bool
    ensures { result ≡ falls next edge }
{
    !edge.counts && is_next(next, edge.block)
}

/// Which of two blocks stands behind, if any.
pub(crate) fn follower(next: Option<u64>, first: u64, second: u64) -> Follows
    ensures { result ≡ follower next first second }
{
    if is_next(next, first) {
        Follows::First
    } else if is_next(next, second) {
        Follows::Second
    } else {
        Follows::Neither
    }
}
