//! The staging of a source of Lua and Terra code: the layers of jobs and the calls of Terra functions by Lua code, in one loop, over the
//! opening globals; and the outcome.
//!
//! - `world`: what a staging works in;
//! - `runs`: the runs of Terra functions that Lua code called;
//! - `calling`: calls of Terra functions by Lua code, as layers;
//! - `words`: what is passed to Terra functions, and what they give;
//! - `running`: images of Terra functions, and their runs;
//! - `sink`: what runs print to;
//! - `raising`: how calls end;
//! - `staged`: all layers as one stage;
//! - `staging`: the call, and its outcome;
//! - `texts`: the same call for its texts alone.
#![tactic(auto)]

pub mod calling;
pub mod raising;
pub mod running;
pub mod runs;
pub mod sink;
pub mod staged;
pub mod staging;
pub mod texts;
pub mod words;
pub mod world;

pub use runs::Steps;
pub use staging::{Outcome, stage};
pub use texts::{stage_checks, stage_terms};
pub use world::Staging;
