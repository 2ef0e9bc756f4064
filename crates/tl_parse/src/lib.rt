//! Reads a text into its tree, or refuses its first token that no text of the grammar goes on with.
#![tactic(auto)]

// A value, or the end of the function with the error. (`?` does the same, and leaves a goal at each exit.)
macro_rules! read {
    ($e:expr) => {
        match $e {
            Ok(x) => x,
            Err(e) => return Err(e),
        }
    };
}

// The same of what gives no value that is kept.
macro_rules! pass {
    ($e:expr) => {
        if let Err(e) = $e {
            return Err(e);
        }
    };
}

mod ahead;
pub mod chunk;
pub mod error;
mod expressions;
mod lists;
mod numerals;
mod parser;
mod statements;
mod symbols;
mod tables;
mod terra_code;
mod terra_definitions;
mod terra_expressions;
mod terra_statements;

pub use chunk::parse;
pub use error::SyntaxError;
