//! The call of the program: from words and a source to results, the lines of refusals and a status.
//!
//! [`terrac`] is generic over a source of bytes and two sinks, and its clauses say what they take and give.
//! [`refuse_unread`] is what the program does where its words can't be collected. `specs/` has the promise.
#![tactic(auto)]

mod arguments;
pub mod call;
mod delivery;
mod due;
mod ends;
mod exec;
mod laws;
mod lines;
mod making;
mod parsing;
mod reading;
mod source;
pub mod status;
mod tracing;
mod words;
mod work;
mod writing;

pub use call::{one_due, refuse_unread, terrac};
pub use laws::{
    calls_are_meant, due_tells_meaning, jobs_are_lawful, runs_tell_meaning, sources_are_meant,
    words_are_worked,
};
pub use status::{FaultKind, ImageFault, Status};
