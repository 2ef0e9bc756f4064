//! A plain evaluator of typed terms of Terra.
//!
//! It is the meaning of `terra_meaning`, run: a recursive evaluator over the store's nodes with one region, whose contract is that
//! definition. So what the definition says can be tried on rows. It is written to be read, and is slow.
#![tactic(auto)]

mod assigning;
mod beginning;
mod call;
mod declaring;
mod evaluator;
mod events;
pub mod frame;
mod laying;
mod looping;
pub mod memory;
pub mod nodes;
mod numbering;
pub mod operate;
mod program;
mod reaching;
mod state;
mod stop;
pub mod types;
mod value;

pub use program::{evaluate, static_bytes};
pub use stop::{End, Run};
pub use value::Value;
