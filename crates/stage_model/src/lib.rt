//! What the staging of a source comes to: definitions, and the types that they speak of. `stage_loop` makes them come true.
//!
//! - `staging`: how a staging goes on behind its chunk, and how it ends;
//! - `texts`: what is written of it;
//! - `law`: that what it comes to is one thing.
#![tactic(auto)]

pub mod law;
pub mod staging;
pub mod texts;

pub use law::{checks_are_in_order, larger_changes_nothing};
pub use staging::{CheckLine, End, Mode};
pub use texts::Written;
