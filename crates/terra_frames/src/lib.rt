//! Where the variables of a function lie in its frame, as a reader of addresses rests on it.
#![tactic(auto)]

pub mod law;

pub use law::frames_are_laid_out;
