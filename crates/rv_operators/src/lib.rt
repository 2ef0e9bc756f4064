//! The instructions that compute the operators of three-address code.
//!
//! `specs/Claims.antt` says what a straight sequence of instructions does, by the machine's definition, and
//! `specs/Codes.antt` which sequence stands for an operator at a width. That these do what the operator gives is the
//! law of `law`, and so is that the machine's run does what they do. [`push_operator`] and [`push_cut`] emit them.
#![tactic(auto)]

pub mod emit;
pub mod law;

pub use emit::{push_cut, push_operator};
pub use law::{
    instructions_stand_at_their_words, one_operand_needs_no_more, operators_are_computed,
    straight_code_runs, words_are_cut,
};
