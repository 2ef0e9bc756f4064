//! Lua's basic functions (Lua 5.1 manual, section 5.1), and the globals with which a source begins.
//!
//! - `globals`: the heap with which a source begins;
//! - `calls`: a call of a function, and how one that asked goes on;
//! - `errors`: the functions that raise errors, and the one that catches them;
//! - `tables`: those that work on tables;
//! - `printing`: those that tell what values are, and write them;
//! - `texts`: the texts of values;
//! - `arguments`: the arguments of functions;
//! - `answers`: what functions answer, and what they pay.
#![tactic(auto)]

pub mod answers;
pub mod arguments;
pub mod calls;
pub mod errors;
pub mod globals;
pub mod printing;
pub mod tables;
pub mod texts;

pub use answers::{bad_argument, give, give_text, raise, raise_text};
pub use arguments::{argument, has_argument, number_in, number_or, table_in};
pub use calls::{back, call};
pub use globals::opening;
