//! The functions of Terra's library that need no check and no layout: symbols, macros, constants, lists, types, what is asked of types and
//! functions, the fields of Terra values, and the types that operators make; and what may be exported. `check_library` has those that need
//! a check or a layout.
//!
//! - `calls`: which function is called, and how one goes on that called a function;
//! - `symbols`, `types`, `lists`, `fields`: what each one does;
//! - `exports`: what may be exported, and what an export leaves;
//! - `globals`: the globals of Terra with which a source begins;
//! - `answers`: what functions answer, and what they pay;
//! - `laws`: what follows of what calls keep.
#![tactic(auto)]

pub mod answers;
pub mod calls;
pub mod exports;
pub mod fields;
pub mod globals;
pub mod laws;
pub mod lists;
pub mod symbols;
pub mod types;

pub use calls::{back, call};
pub use globals::opening;
pub use laws::defined_terms_stay;
