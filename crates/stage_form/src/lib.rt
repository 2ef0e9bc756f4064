//! The form of a stage: layers that ask one another, and the loop that runs them.
//!
//! - `form`: what a stage gives: the layer of each question, and the answer that each end is;
//! - `staging`: the loop over the layers that are suspended, and its laws.
#![tactic(auto)]

pub mod form;
pub mod staging;

pub use form::Stages;
pub use staging::{Outcome, run};
