//! The operators of Terra on words of 64 bits.
//!
//! A word stands for a number of a width: its low bits, with the bits above zero, or copies of the sign. What each
//! operator gives is in `terra_words`, and these functions compute it.
#![tactic(auto)]

pub mod operate;

pub use operate::{apply, complement, is_less, is_negative, negate, wrap};
