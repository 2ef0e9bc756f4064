//! From the tree of a source to the image of its exports: a source is staged, and where that is done, what it exports is compiled.
//!
//! `stage_exports` gives texts, numbers and the image alone, for a caller that has no use for the world of a staging.
#![tactic(auto)]

mod emitting;

pub use emitting::{Emitted, Made, stage_exports};
