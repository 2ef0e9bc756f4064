//! Texts that bind alike stage alike.
//!
//! What the staging of a text comes to depends on no name of a local ([`texts_stage_alike`]): two texts whose uses of locals find the same
//! declarations, and that are the same but for the names of these, stage alike, whatever units and memory are given. So what a quote binds is
//! what its text says, wherever it is spliced, and no name of a local is captured, or captures one.
#![tactic(auto)]

pub mod law;

pub use law::{texts_stage_alike, trees_stage_alike};
