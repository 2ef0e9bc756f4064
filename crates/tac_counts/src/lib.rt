//! The counts that three-address code takes: which steps take one, and how many are left where a run stops
//! (`specs/Counts.antt`).
//!
//! Counted machine code keeps in a register what is left, so what it has at the end says how many counts the run
//! needed.
#![tactic(auto)]

pub mod laws;

pub use laws::{fewer_counts_are_left, runs_need_what_is_not_left, steps_take_counts};
