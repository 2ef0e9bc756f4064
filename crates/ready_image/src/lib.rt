//! What compiling asks of a store, at the end of a staging and in the midst of it.
//!
//! In a sound world whose functions were checked and counted, these functions with all that they reach can be compiled
//! ([`ready_exports_compile`]), and their faults have places of a text ([`faults_have_places`]).
#![tactic(auto)]

pub mod law;

pub use law::{faults_have_places, ready_exports_compile};
