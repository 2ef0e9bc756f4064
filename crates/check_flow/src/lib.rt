//! Checks of functions, and layouts of types: two machines of explicit frames that do what the plans of `check_model` say.
//!
//! `check` goes through the functions that a function reaches, in the order in which they were first reached, and asks for the bodies that
//! aren't typed. `layout` settles the layout of a type. Their frames are in `check_frame` and `layout_frame`, and how these go on is
//! `after` of `specs/CheckFrames` and `specs/LayoutFrames`.
#![tactic(auto)]

pub mod check;
pub mod check_frame;
pub mod check_steps;
pub mod entries;
pub mod layout;
pub mod layout_frame;
pub mod layout_steps;
pub mod mentions;
pub mod reaching;

pub use check::Check;
pub use layout::Layout;
