// Why a text has no tree.
use std::alloc::{AllocError, AllocFailed};
use thiserror::Error;
use tl_base::{NoMemory, Place};
use tl_lex::SyntaxKind;

/// Why a text has no tree.
#[derive(Clone, Copy, Debug, PartialEq, Eq, Error)]
pub enum SyntaxError {
    /// The token at this place is refused, for this reason.
    #[error("syntax {kind} at {}:{}", .place.line, .place.word)]
    Refused { kind: SyntaxKind, place: Place },
    /// Memory was not found.
    #[error("no memory")]
    NoMemory,
}

impl From<AllocError> for SyntaxError {
    ghost use Rattle.std.specs.Prelude.{◌≡◌};
    ghost use Rattle.tl_parse.specs.declared.error.SyntaxError.TheVariants as errors;

    ghost from_gives = { λ _ e. e ≡ errors.NoMemory };

    fn from(_: AllocError) -> SyntaxError {
        SyntaxError::NoMemory
    }
}

impl<T: Drop> From<AllocFailed<T>> for SyntaxError {
    ghost use Rattle.std.specs.Prelude.{◌≡◌};
    ghost use Rattle.tl_parse.specs.declared.error.SyntaxError.TheVariants as errors;

    ghost from_gives = { λ _ e. e ≡ errors.NoMemory };

    fn from(_: AllocFailed<T>) -> SyntaxError {
        SyntaxError::NoMemory
    }
}

impl From<NoMemory> for SyntaxError {
    ghost use Rattle.std.specs.Prelude.{◌≡◌};
    ghost use Rattle.tl_parse.specs.declared.error.SyntaxError.TheVariants as errors;

    ghost from_gives = { λ _ e. e ≡ errors.NoMemory };

    fn from(_: NoMemory) -> SyntaxError {
        SyntaxError::NoMemory
    }
}
