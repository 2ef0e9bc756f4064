//! Lua code in trees that are alike but for the names of locals.
//!
//! Lua code means the same in two trees that are alike ([`lua_means_same`]): whatever it is asked for, and whatever answers it is given, it
//! ends alike, asks the same questions with the same heaps, and pays as much.
#![tactic(auto)]

pub mod law;

pub use law::lua_means_same;
