//! The tests of the parser of both languages: texts with their trees and refusals. A tree is compared as a text,
//! which `text` writes. They stand apart from the parser, since a crate with tests is proved twice.
#![tactic(auto)]

#[cfg(test)]
mod answers;
#[cfg(test)]
mod cut_tests;
#[cfg(test)]
mod limit_tests;
#[cfg(test)]
mod lua_tests;
#[cfg(test)]
mod place_tests;
#[cfg(test)]
mod refusal_tests;
#[cfg(test)]
mod terra_tests;
#[cfg(test)]
mod text;
