//! The functions of Terra's library that ask for the check of a function or for the layout of a type: `global`, `sizeof`, `offsetof`,
//! `compile`, `gettype` and `saveobj`, and the exports at the end of the chunk.
//!
//! Each of them runs up to its end or to a question (`ask`), and goes on with the answer (`back`). What waits for an answer holds all that
//! was read before the question and counts after it: so the entries of a table that is exported are those that it had at the call.
//!
//! - `calls`: which function is called, and how one goes on with an answer;
//! - `layouts`: sizes, offsets and globals;
//! - `checks`: checks, and the types of functions;
//! - `exports`: the entries of a table in their order, with the tests before and after each check;
//! - `counting`: the typed nodes of exports with all that they reach, of which each function counts once;
//! - `answers`: how refusals are raised;
//! - `laws`: what follows of what calls keep.
#![tactic(auto)]

pub mod answers;
pub mod ask;
pub mod calls;
pub mod checks;
pub mod counting;
pub mod exports;
pub mod laws;
pub mod layouts;

pub use ask::{AskNext, AskTurn, ExportNext};
pub use calls::{asks, back, call};
pub use counting::Counted;
pub use exports::end_of_chunk;
pub use laws::defined_terms_stay;
