//! What the library promises of sound worlds.
//!
//! Whatever it is called with, a function of the library leaves a sound world behind a sound one, to which that leads: one that needs
//! no check and no layout ([`calls_leave_sound`], [`answers_leave_sound`]), and as a layer of a staging ([`library_keeps_sound`],
//! [`type_texts_keep_sound`]); and one that asks for a check or a layout, with its question ([`calls_ask_sound`], [`ends_ask_sound`])
//! and with an answer that fits it ([`answers_ask_sound`]).
#![tactic(auto)]

pub mod law;

pub use law::{
    answers_ask_sound, answers_leave_sound, calls_ask_sound, calls_leave_sound, ends_ask_sound,
    library_keeps_sound, type_texts_keep_sound,
};
