// The flow graph of three-address code: what each part reads and writes, and where it goes.

use tl_base::List;

/// Numbers of temporaries, or of blocks, in order.
pub type TempList = List<u64>;

/// The temporaries that an instruction reads, and the one that it writes.
#[derive(Drop)]
pub struct Step {
    pub reads: TempList,
    pub write: Option<u64>,
}

/// Steps in order.
pub type StepList = List<Step>;

/// The steps of a block, and the temporaries that its exit reads and the blocks that follow.
#[derive(Drop)]
pub struct FlowBlock {
    pub steps: StepList,
    pub reads: TempList,
    pub next: TempList,
}
