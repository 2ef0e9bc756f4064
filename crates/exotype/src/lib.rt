//! The world of a staging, and Lua values as Terra terms.
//!
//! `world` has Lua's heap, Terra's store, what is kept of types (`kept`), the exports so far (`exports`) and the memory of a run.
//! `types` makes types in it, `becoming` turns Lua values into terms, and `fault` has the errors that are raised where Lua values
//! meet Terra code. Definitions are in `specs/`: `Becoming` says which term a value becomes.
#![tactic(auto)]

pub mod became;
pub mod becoming;
pub mod exports;
pub mod fault;
pub mod kept;
pub mod laws;
pub mod property;
pub mod types;
pub mod world;

pub use became::Became;
pub use exports::Exports;
pub use fault::Fault;
pub use kept::{Kept, StructTables};
pub use laws::what_is_kept_is_known;
pub use property::{Known, Property};
pub use world::World;
