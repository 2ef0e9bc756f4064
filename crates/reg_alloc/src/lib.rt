//! Registers and slots for the temporaries of three-address code.
//!
//! `tac_form` says where a temporary is in use, `tac_live` finds where it is live, and `specs/Right.antt` says which
//! assignments are right. `check_assignment` answers that exactly, for an assignment made in any way. `assign` makes only
//! such, by a linear scan over intervals (`specs/Intervals.antt`).
#![tactic(auto)]

pub mod assignment;
pub mod check;
mod intervals;
mod numbers;
pub mod scan;
mod spans;

pub use assignment::{Assignment, Home};
pub use check::check_assignment;
pub use scan::assign;
pub use tac_live::flow_graph;
