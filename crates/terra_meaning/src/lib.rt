//! What typed terms of Terra mean.
//!
//! `specs/Meaning.antt` says it, by recursion on the term: an evaluator over one region of memory, with variables by their symbols
//! that are values or addresses, and with a count that bounds calls and turns of loops. Lowering to three-address code keeps this
//! meaning. `proofs/Examples.antt` and `proofs/Rows.antt` have small functions with their runs, computed by the checker.
#![tactic(auto)]

pub mod laws;

pub use laws::{
    larger_counts_extend_runs, runs_depend_on_what_is_reached, runs_need_one_count,
    scopes_keep_variables,
};
