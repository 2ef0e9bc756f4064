//! Specialising Terra code in trees that are alike.
//!
//! In the trees of texts that bind alike Terra code is specialised alike, and asks for the same Lua code
//! ([`specialising_means_same`]).
#![tactic(auto)]

pub mod law;

pub use law::specialising_means_same;
