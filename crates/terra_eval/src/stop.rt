// Why evaluation stops.

ghost use Rattle.std.specs.Prelude.{◌≡◌};

use crate::value::Value;
use std::alloc::{AllocError, AllocFailed};
use terra_words::FaultKind;
use tl_base::{NoMemory, Place};

/// How a run ends; code that typing has passed is never stuck.
#[derive(Drop)]
pub enum End {
    Returned(Value),
    Fault(FaultKind, Place),
    Stuck,
}

/// A run: an end, or the need of one more call or turn; with the output.
#[derive(Drop)]
pub enum Run {
    Over(End, Vec<u8>),
    More(Vec<u8>),
}

/// What stops a run before its function returns.
#[derive(Clone, Copy)]
pub(crate) enum Halt {
    Fault(FaultKind, Place),
    Stuck,
    More,
}

/// Why evaluation goes no further: the run stops, or memory wasn't found.
#[derive(Clone, Copy)]
pub(crate) enum Stop {
    NoMemory,
    Halted(Halt),
}

impl Stop {
    pub(crate) fn fault(kind: FaultKind, at: Place) -> Stop
        ensures { result ≡ Stop.Halted (Halt.Fault kind at) }
    {
        Stop::Halted(Halt::Fault(kind, at))
    }
}

impl From<AllocError> for Stop {
    ghost use Rattle.terra_eval.specs.declared.stop.Stop.TheVariants as stops;

    ghost from_gives = { λ _ e. e ≡ stops.NoMemory };

    fn from(_e: AllocError) -> Stop {
        Stop::NoMemory
    }
}

impl<T: Drop> From<AllocFailed<T>> for Stop {
    ghost use Rattle.terra_eval.specs.declared.stop.Stop.TheVariants as stops;

    ghost from_gives = { λ _ e. e ≡ stops.NoMemory };

    fn from(_e: AllocFailed<T>) -> Stop {
        Stop::NoMemory
    }
}

impl From<NoMemory> for Stop {
    ghost use Rattle.terra_eval.specs.declared.stop.Stop.TheVariants as stops;

    ghost from_gives = { λ _ e. e ≡ stops.NoMemory };

    fn from(_e: NoMemory) -> Stop {
        Stop::NoMemory
    }
}
