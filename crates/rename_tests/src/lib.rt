//! The tests of scopes: uses of names in texts, with the declarations that they find, by hand from the rules. They stand apart from what
//! they test, since a crate with tests is proved twice.
#![tactic(auto)]

#[cfg(test)]
mod scope_tests;
