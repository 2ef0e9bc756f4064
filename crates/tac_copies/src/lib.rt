//! Three-address code without copies that it can do without.
//!
//! Lowering copies the word of each variable that is read, so that what is evaluated later can't change it, and each result that is
//! assigned. [`directed`] puts a result at once to where the next instruction copies it (`specs/Directed.antt`), and [`shortened`] reads
//! what is copied where it was copied from (`specs/Shortened.antt`), each where the temporary of the copy is read once in the whole code.
//! [`reached`] leaves out the blocks behind a `return` that no way leads to (`specs/Reached.antt`), and [`taken`] lets parameters go at
//! once to the temporaries of their variables (`specs/Taken.antt`). All keep all runs, at every count, and what machine code asks of code
//! (`specs/Laws.antt`).
#![tactic(auto)]

mod copied;
mod directing;
pub mod laws;
mod named;
mod reaching;
mod read_once;
mod reads;
mod shortening;
mod taking;

pub use directing::directed;
pub use reaching::reached;
pub use shortening::shortened;
pub use taking::taken;
