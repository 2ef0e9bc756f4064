//! A source of any size, for measurements and tests of the compiler.
//!
//! `generate` writes as many functions as are asked for, of four kinds in turn: one uses a struct's fields, one a quote and a splice, one a
//! loop, and one is a pair that calls each other. `main` calls them all, through functions that call a hundred of them each.
//! `specs/Generated.antt` is the text.
#![tactic(auto)]

mod generating;

pub use generating::generate;
