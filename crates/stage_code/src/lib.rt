//! The layers of a staging that need no check and no layout by themselves: Lua code, the specialisation of Terra code, and the functions of
//! the library. `stage_check` puts them beside those that check.
//!
//! - `asked`: what these layers ask for;
//! - `staged`: the layers.
#![tactic(auto)]

pub mod asked;
pub mod staged;

pub use asked::Asked;
pub use staged::{Staged, TerraStage};
