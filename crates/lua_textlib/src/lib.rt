//! Lua's functions on texts and on tables (Lua 5.1 manual, sections 5.4 and 5.5), as far as they are in the profile: `string` with `byte`,
//! `char`, `format`, `len`, `rep` and `sub`, and `table` with `concat`, `insert` and `remove`.
//!
//! - `calls`: which function is called;
//! - `texts`, `formatting`, `tables`: what each one does, and what it pays; `laws`: what moving values comes to;
//! - `arguments`: what its arguments are, `answers`: what it answers, `refusal`: what ends the making of a text.
#![tactic(auto)]

pub mod answers;
pub mod arguments;
pub mod calls;
pub mod formatting;
pub mod laws;
pub mod refusal;
pub mod tables;
pub mod texts;

pub use calls::call;
