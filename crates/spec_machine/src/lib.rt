//! The specialisation of Terra code: a machine of explicit frames that does what the plans of `spec_model` say.
//!
//! # How a step is written
//!
//! A step takes the frames, the world and the budget, and says what it does: `Goes items frames plan world left frames' step world'
//! left'` (`specs/Steps`) says that the frames and the plan do, whatever the answers, what the new frames and the step do. A step that
//! leaves the world or the budget alone says so for every world or budget. `kept` says what later worlds keep. Nothing is said of
//! `NoMemory`.
//!
//! What a plan does without a wait (a value becomes a term, values become statements, a type is read from a table) is a function of its
//! own, whose answer is a value with which the plan goes on, or a step at which it is left (`Reached`): `Comes`, or `Gets` where it is
//! never left.
//!
//! What waits has a frame (`frame`), whose plan is `after` of `specs/Frames`. No step calls itself: a list whose item needed nothing goes
//! on by a frame, `Next`, and the end that it waits for.
#![tactic(auto)]

pub mod answered;
pub mod blocks;
pub mod code;
pub mod conditions;
pub mod definitions;
pub mod expressions;
pub mod frame;
pub mod lists;
pub mod loops;
pub mod machine;
pub mod making;
pub mod names;
pub mod operators;
pub mod parameters;
pub mod paths;
pub mod quotes;
pub mod raise;
pub mod reached;
pub mod row;
pub mod spec;
pub mod splices;
pub mod statements;
pub mod structs;
pub mod terms;
pub mod types;
pub mod variables;

pub use frame::SpecFrame;
pub use spec::Spec;
