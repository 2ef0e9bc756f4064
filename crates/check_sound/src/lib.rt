//! What typing promises of typed terms.
//!
//! A staging begins in a sound world ([`stagings_begin_sound`]), and a body that is typed in a sound world leaves a sound world
//! ([`typing_keeps_sound`]): what it typed passes the test of typed terms. Behind a check, the function and all that it reaches can be
//! called and pass that test ([`checks_keep_sound`]), and a store with these functions alone is typed ([`reached_stores_are_typed`]).
//! What was ready, and exports that were counted, stay so while the world grows ([`ready_stays`], [`counted_stays`]).
#![tactic(auto)]

pub mod law;

pub use law::{
    checks_keep_sound, counted_stays, layouts_keep_sound, reached_stores_are_typed, ready_stays,
    stagings_begin_sound, typing_keeps_sound,
};
