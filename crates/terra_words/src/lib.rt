//! The numbers of running Terra code.
//!
//! A value that isn't an aggregate is a word of 64 bits: the number's low bits, extended by the sign of its type.
//! `specs/Words.antt` has what the operators give of words, and `specs/Runs.antt` how a run ends. Terms, three-address code and
//! the machine's code all cite these, so none of them has operators of its own.
#![tactic(auto)]

pub mod words;

pub use words::{BinaryOperator, FaultKind, Width};
