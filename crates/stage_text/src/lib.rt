//! The texts that a staging writes of what it made.
//!
//! - `types`: the text of a type, which `print` and `tostring` ask for, and that of a function type, which `check` writes;
//! - `terms`: the text of the exports, which the command `terms` writes.
#![tactic(auto)]

pub mod terms;
pub mod types;

pub use terms::terms_text;
pub use types::{push_function_type, type_text};
