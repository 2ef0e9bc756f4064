//! The types of Terra, their sizes and the layouts of structs.
//!
//! `types` has the types by their ids, `layout` what a struct's layout is, and `laying` how a layout is found. `key` has what
//! tells types apart, and `elements` what is kept of nested arrays. `specs/Sizes.antt` says how many bytes a type has and where
//! they are aligned, `specs/Layouts.antt` where the entries of a struct lie, `specs/Scalars.antt` which types have one word, and
//! `specs/Making.antt` which id a type has.
#![tactic(auto)]

pub mod elements;
pub mod key;
pub mod laws;
pub mod laying;
pub mod layout;
pub mod measure;
pub mod measuring;
pub mod table;
pub mod types;

pub use laws::what_is_there_stays;
pub use layout::{Entry, Laid, LaidList, Layout, Settled};
pub use measure::{LARGEST_SIZE, Measure};
pub use types::{Integer, TypeForm, TypeList, Types};
