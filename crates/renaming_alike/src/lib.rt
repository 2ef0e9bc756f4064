//! Texts with their locals renamed bind as they did.
//!
//! The text that [`tl_renaming::rename`] gives of another reads ([`renamed_texts_read`]) and binds alike ([`renamed_texts_are_alike`]): each
//! use of a local finds the declaration that it found, so no new name captures a use, and none is captured. Its tokens stand where they
//! stood ([`renamed_texts_have_same_places`]). So it stages as that text does, to the same errors at the same places (`stage_alike`). All
//! this is said of texts in which no name has more than 248 bytes: else a new name could be longer than names may be. Of every text it is
//! said that what it becomes is UTF-8 if it is ([`renamed_texts_are_utf8`]).
#![tactic(auto)]

pub mod law;

pub use law::{
    renamed_texts_are_alike, renamed_texts_are_utf8, renamed_texts_have_same_places,
    renamed_texts_read,
};
