//! Names of locals: which declaration each use finds.
#![tactic(auto)]

mod index;
mod latest;
mod search;
pub mod slots;
mod standing;
mod within;

pub use slots::{Slots, resolve};
