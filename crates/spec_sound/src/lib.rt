//! What specialisation promises of worlds.
//!
//! Where it begins in a sound world, and each question is answered in a sound world that follows the world of the question, it asks in
//! sound worlds, and ends in a sound world that follows the first ([`specialising_keeps_sound`]). The one condition on a tree is that its
//! nodes have places of a text, as all trees of the code have ([`places_fit`]).
#![tactic(auto)]

pub mod law;
pub mod places;

pub use law::specialising_keeps_sound;
pub use places::places_fit;
