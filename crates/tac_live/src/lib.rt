//! Where the temporaries of three-address code are live.
//!
//! `tac_form` says what live means (its `specs/Live.antt`): a way leads to a read with no write between. All goes
//! by the flow graph of the code, and by a search backward for each temporary that some block reads before it
//! writes it: the others are live where no block begins. `live_blocks` finds the blocks for one temporary, in
//! memory of the order of the code, and `live_at_begins` the temporaries for each block (`specs/Rows.antt`).
//! `live_at_exit` and `TempSet` go on within a block.
#![tactic(auto)]

pub mod flow;
pub mod groups;
pub mod live;
pub mod marks;
pub mod reach;
pub mod uses;

pub use flow::{Flow, flow_of};
pub use live::{live_at_begins, live_at_exit};
pub use marks::TempSet;
pub use reach::live_blocks;
pub use uses::flow_graph;
