// What is reached without a wait.

use spec_model::{End, Job, SpecQuestion};
use tl_base::Step;

/// What the machine does next.
pub type SpecStep = Step<Job, End, SpecQuestion>;

/// What comes of something that waits for nothing.
#[derive(Drop)]
pub enum Reached<T> {
    /// A value, with which it goes on.
    Value(T),
    /// An error or a payment above what is left, at which it is left.
    Left(SpecStep),
}
