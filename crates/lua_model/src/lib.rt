//! What Lua code means (Lua 5.1 manual, sections 2.1 to 2.8, and 5.1): a plan for each kind of node, in `specs/`.
//!
//! The plans speak of a tree by the list of its nodes, and of the heap by its lists. The types here are those that the
//! code which evaluates Lua code needs as well: what it is asked to do, what it does inside, how that ends, and what it
//! asks.
#![tactic(auto)]

pub mod end;
pub mod job;
pub mod question;
pub mod scope;

pub use end::{End, LuaEnd};
pub use job::{Caller, Job, Loop, LuaJob};
pub use question::{LuaAnswer, LuaQuestion};
pub use scope::Scope;
