//! From typed terms to three-address code.
//!
//! `specs/Lowering.antt` says which code a function has, by recursion on its term: pieces of code, which are the same wherever they
//! stand, go on from one another as the parts of the meaning do. That the code of a typed store's functions has the runs that their
//! terms mean is the law of [`lowering_keeps_runs`], that each way round its flow graph counts that of [`lowered_code_is_counted`],
//! that it keeps its words and private bytes that of [`lowered_code_is_sized`], and that machine code can be made of it that of
//! [`lowered_code_is_good`]. `specs/Needs.antt` says what the proofs use of typed terms. A function with a parameter too wide to be
//! a value is called nowhere; its code faults at once. [`lower`] makes the code.
//! `proofs/Examples.antt` and `proofs/Mixed.antt` have the runs of small functions' code, computed by the checker.
#![tactic(auto)]

mod around;
mod assigning;
mod block;
mod callable;
mod counting;
mod emit;
mod item;
pub mod law;
mod number;
mod operation;
mod place;
mod scope;
mod term;
mod value;
mod work;

pub use callable::lower;
pub use law::{
    lowered_code_is_counted, lowered_code_is_good, lowered_code_is_sized, lowering_keeps_runs,
};
