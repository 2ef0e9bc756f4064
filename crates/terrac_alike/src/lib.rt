//! What `terrac` owes for two sources that bind alike.
//!
//! What a source comes to depends on no name of a local ([`alike_sources_are_due_alike`]): where two sources differ in the names of locals
//! alone, what is due for the one under words of `run`, `emit`, `check` or `terms` is due for the other. Under `check` and `terms` that is one
//! thing ([`alike_sources_answer_alike`]); under `run` and `emit` it is the same images, of the same exports. A source and what `terrac rename`
//! writes of it are two such ([`renamed_sources_are_due_alike`]).
#![tactic(auto)]

pub mod law;

pub use law::{
    alike_sources_answer_alike, alike_sources_are_due_alike, renamed_sources_are_due_alike,
};
