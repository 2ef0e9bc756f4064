//! Trees that are alike but for the names of locals.
//!
//! The trees of two texts that bind alike are alike ([`alike_trees`]): their nodes are the same but for names, each use of a name finds the
//! same declaration, and names of globals, fields and methods are the same.
#![tactic(auto)]

pub mod law;

pub use law::alike_trees;
