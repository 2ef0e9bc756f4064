//! `terrac`, a compiler of Terra for RV64IM: the program over standard input, output and error.
//!
//! What it does is [`terrac_call::terrac`], whose clauses say what is taken and given. Here are its words, its source and
//! its sinks.
#![tactic(auto)]

mod standard;

use standard::{StdSink, StdSource};
use std::process::ExitCode;
use std::{env, io};
use terrac_call::{refuse_unread, terrac};

fn main(rt: HostRuntime) -> ExitCode {
    let mut source = StdSource::new(rt.stdin());
    let mut out = StdSink::new(rt.stdout());
    let mut notes = StdSink::new(rt.stderr());
    let status = match collect_words(&rt) {
        Ok(words) => terrac(rt.alloc(), &words, &mut source, &mut out, &mut notes),
        Err(error) => refuse_unread(error.kind(), &mut out, &mut notes),
    };
    ExitCode::from(status.code())
}

/// The program's words, its own name first.
fn collect_words(rt: &HostRuntime) -> io::Result<Vec<String>> {
    let mut words = Vec::new(rt.alloc());
    for word in env::args(rt)? {
        words.push(word)?;
    }
    Ok(words)
}
