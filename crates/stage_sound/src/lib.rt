//! What staging promises of worlds.
//!
//! Each layer of the stage keeps worlds sound by a law of its own: typing, checks and layouts (`check_sound`), specialisation
//! (`spec_sound`) and the library (`library_sound`); Lua code has the heap alone. So does the stage ([`jobs_keep_sound`]): a question
//! is asked in a sound world, and each answer brings one back, whatever the layers ask one another; that holds while a staging goes on
//! ([`stages_hold_sound`]). A source's staging ends in a sound world, in which exports are fine, and each one and all that it reaches can be compiled ([`stagings_end_sound`]).
#![tactic(auto)]

pub mod law;

pub use law::{jobs_keep_sound, stages_hold_sound, stagings_end_sound};
