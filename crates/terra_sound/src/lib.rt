//! What typing promises of the runs of typed terms.
//!
//! A run of a typed function is never stuck ([`typed_runs_are_not_stuck`]), and what it gives back is a value of the function's result
//! type ([`typed_runs_give_values`]). The meaning of terms has an end for runs that make no sense; the back end promises nothing of it.
#![tactic(auto)]

pub mod law;

pub use law::{typed_runs_are_not_stuck, typed_runs_give_values};
