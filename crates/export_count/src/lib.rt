//! What the count of exports promises.
//!
//! Where no function passes the most typed nodes that there may be, the exports with one more of a function that was checked are counted:
//! their functions stand in the list with all that these reach, each once, and have so many typed nodes ([`counts_are_right`]). So is one
//! function by itself ([`one_counts_right`]).
#![tactic(auto)]

pub mod law;

pub use law::{counts_are_right, one_counts_right};
