// Values.

ghost use Rattle.std.specs.Prelude.{◌≡◌, IfOk};
ghost use Rattle.terra_words.specs.Runs.{bytes, bytes_in, is_true, number, word};

use std::alloc::{AllocError, Global};
use std::marker::Model;

/// What a value is.
#[derive(Drop)]
pub(crate) enum Datum {
    Word(u64),
    Bytes(Vec<u8>),
}

/// A value: a word for an integer, a bool, a pointer or a function value, all bytes of an aggregate; and 0 for unit.
#[derive(Drop)]
pub struct Value {
    datum: Datum,
}

impl Model for Value {
    ghost use Rattle.terra_words.specs.Runs as runs;
    ghost use Rattle.terra_eval.specs.Data.{value_of};

    ghost Value = { runs.Value };

    ghost view = { λ v. value_of v.datum };
}

impl Value {
    /// A word.
    pub fn word(x: u64) -> Value
        ensures { result ≡ word x }
    {
        Value {
            datum: Datum::Word(x),
        }
    }

    /// All bytes of an aggregate.
    pub fn from_bytes(bs: Vec<u8>) -> Value
        ensures { result ≡ bytes bs.items }
    {
        Value {
            datum: Datum::Bytes(bs),
        }
    }

    /// The word; 0 for an aggregate.
    pub fn number(&self) -> u64
        ensures { result ≡ number self.now }
    {
        match &self.datum {
            Datum::Word(x) => *x,
            Datum::Bytes(_) => 0,
        }
    }

    /// The bytes of an aggregate; none for a word.
    pub fn as_bytes(&self) -> &[u8]
        ensures { result.now ≡ bytes_in self.now }
    {
        match &self.datum {
            Datum::Word(_) => &[],
            Datum::Bytes(bs) => bs,
        }
    }

    /// Whether the word isn't zero.
    pub(crate) fn is_true(&self) -> bool
        ensures { result ≡ is_true self.now }
    {
        self.number() != 0
    }

    /// The same value once more.
    pub(crate) fn copy(&self, alloc: Global) -> Result<Value, AllocError>
        ensures { IfOk result (λ v. v ≡ self.now) }
    {
        match &self.datum {
            Datum::Word(x) => Ok(Value::word(*x)),
            Datum::Bytes(bs) => Ok(Value::from_bytes(bs.to_vec(alloc)?)),
        }
    }
}
