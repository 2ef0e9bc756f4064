//! Texts with their locals renamed.
//!
//! [`rename`] reads a text and gives it with its locals renamed (`call`). [`renamed`] does so where the text was read: it goes four times over
//! the nodes of the tree, each time in order: to see how many letters `v` a new name begins with (`prefix`), to mark the declarations and to
//! number them (`declarations`), and to write the text (`text`). So it takes time in proportion to the text and its tree, but for what
//! finding the declarations of uses takes.
#![tactic(auto)]

mod call;
mod declarations;
mod prefix;
mod text;

pub use call::rename;
pub use text::renamed;
