//! Small layers, and the stage that they make: how a layer and a stage are written.
//!
//! - `total` reads a list from the world, and asks one question for each of its numbers, for which nothing is paid; it
//!   borrows a table, as others will borrow a tree;
//! - `nest` asks for the task below it, for which nothing is paid either, down to the innermost one, which does one
//!   job;
//! - `sums` asks for numbers other than zero, pays inside a step, and has a part of the world for its own;
//! - `staged` makes one stage of them, in which each question names a layer.
//!
//! A layer is written in this order:
//!
//! 1. its types: tasks, jobs, frames, questions, answers, the ends inside it and its own ends;
//! 2. its meaning, as plans that know no frames, with a job for what the rules pay for (`specs/Total`, `Nest`, `Sums`);
//! 3. a frame for each place at which a plan waits, and `after`, the plan with which it goes on. Where `after` computes
//!    to the very plan that waited, a push needs no proof;
//! 4. its machine: `open`, `begin` and `go_on`, under `using(tl_base::proofs::Steps::pushes)`. A list in a plan is a
//!    recursion on it; the frame has the list and the place in it, and two lemmas join both (`proofs/Numbers`);
//! 5. a struct round `Suspended`, what remains of it (`specs/Rest`), and the `impl Layer` that passes on.
//!
//! A stage takes one more arm of its enum for it, a fitting and a line of the meaning (`specs/Staged`), and two
//! answers, that it means what its task does and begins with `Go` (`proofs/staged`).
#![tactic(auto)]

pub mod end;
pub mod nest;
pub mod staged;
pub mod sums;
#[cfg(test)]
mod tests;
pub mod total;
pub mod world;
