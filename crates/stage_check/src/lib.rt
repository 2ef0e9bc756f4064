//! The layers of a staging with checks: those of `stage_code`, the functions of the library that ask for checks and layouts, and the typing
//! of bodies, checks and layouts. `stage_loop` runs them, with calls of Terra functions by Lua code beside them.
//!
//! - `jobs`: what a layer is asked to do, what it asks, and how it ends;
//! - `asking`: functions of the library that ask, and the exports at the end of the chunk, as layers;
//! - `results`: the result type of a function, as a layer;
//! - `staged`: all layers as one.
#![tactic(auto)]

pub mod asking;
pub mod jobs;
pub mod results;
pub mod staged;

pub use jobs::{Asked, Job, JobEnd};
pub use staged::{CheckStage, Staged};
