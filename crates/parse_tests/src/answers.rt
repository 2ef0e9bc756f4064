// What the parser answers, as a text.
use crate::text::text_of;
use std::alloc::Global;
use std::process::Abort;
use std::test::Fail;
use tl_lex::LONGEST_TEXT;
use tl_parse::{SyntaxError, parse};

/// The tree of a text, or its refusal as it is displayed.
pub(crate) fn answer(rt: &impl Abort, alloc: Global, text: &str) -> Result<String, Fail> {
    assert!(rt; text.len() <= LONGEST_TEXT);
    match parse(alloc, text) {
        Ok(tree) => Ok(text_of(alloc, &tree)?),
        Err(e) => Ok(format!(in alloc; "{e}")?),
    }
}

/// The refusal of a text, if it is refused.
pub(crate) fn refusal(rt: &impl Abort, alloc: Global, text: &str) -> Option<SyntaxError> {
    assert!(rt; text.len() <= LONGEST_TEXT);
    match parse(alloc, text) {
        Ok(_) => None,
        Err(e) => Some(e),
    }
}
