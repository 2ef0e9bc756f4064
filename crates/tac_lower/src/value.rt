// What pieces of code give, and where variables are.

ghost use Rattle.std.specs.Prelude.{◌≡◌, map, IfOk, drop};
ghost use Rattle.tac_lower.specs.Pieces.{address_of, given, part_of, parts_of, rest, result_at, word_at, word_of};
ghost use Rattle.tac_lower.specs.Data.{result_of};

use std::alloc::{AllocError, Global};
use tac_form::{Address, Destination, Operand, Part};
use tl_base::SymId;

/// What is asked of an expression: its value, or the address of the place that it is.
#[derive(Clone, Copy)]
pub(crate) enum Wanted {
    Value,
    Address,
}

/// What a piece of code gives: a word, the bytes of an area, or the address of an offset of the frame.
#[derive(Clone, Copy)]
pub(crate) enum Value {
    Word(Operand),
    Area(u64),
    Offset(u64),
}

/// Where a variable is: a temporary, or an offset of the frame.
#[derive(Clone, Copy)]
pub(crate) enum Holder {
    Temp(u64),
    Offset(u64),
}

/// A variable in scope.
#[derive(Clone, Copy)]
pub(crate) struct Bound {
    pub(crate) symbol: SymId,
    pub(crate) holder: Holder,
}

/// What an assignment goes to: a variable without an address, or what lies at an address.
#[derive(Clone, Copy)]
pub(crate) enum Target {
    Temp(u64),
    Place(Value),
}

/// The word of what has no value.
pub(crate) const NO_WORD: Value = Value::Word(Operand::Constant(0));

impl Value {
    /// The word; zero where it is none.
    pub(crate) fn word(self) -> Operand
        ensures { result ≡ word_of (result_of self) }
    {
        match self {
            Value::Word(a) => a,
            Value::Area(_) => Operand::Constant(0),
            Value::Offset(_) => Operand::Constant(0),
        }
    }

    /// What is passed to a call or given back.
    pub(crate) fn part(self) -> Part
        ensures { result ≡ part_of (result_of self) }
    {
        match self {
            Value::Word(a) => Part::Word(a),
            Value::Area(n) => Part::Area(n),
            Value::Offset(_) => Part::Word(Operand::Constant(0)),
        }
    }

    /// The address.
    pub(crate) fn address(self) -> Address
        ensures { result ≡ address_of (result_of self) }
    {
        match self {
            Value::Word(a) => Address::Word(a),
            Value::Area(_) => Address::Word(Operand::Constant(0)),
            Value::Offset(offset) => Address::Frame(offset),
        }
    }
}

/// What is where a parameter or the result of a call goes.
pub(crate) fn given(to: Destination) -> Value
    ensures { result_of result ≡ given to }
{
    match to {
        Destination::Temp(t) => Value::Word(Operand::Temp(t)),
        Destination::Area(n) => Value::Area(n),
        Destination::Nothing => NO_WORD,
    }
}

/// The value at a position; no word past the end.
pub(crate) fn value_at(values: &[Value], i: usize) -> Value
    ensures { result_of result ≡ result_at (map result_of values.now) i }
{
    match values.get(i) {
        Some(v) => *v,
        None => NO_WORD,
    }
}

/// The word of the value at a position; zero past the end.
pub(crate) fn word_at(values: &[Value], i: usize) -> Operand
    ensures { result ≡ word_at (map result_of values.now) i }
{
    value_at(values, i).word()
}

/// The values but for the first.
pub(crate) fn behind(values: &[Value]) -> &[Value]
    ensures { map result_of result.now ≡ rest (map result_of values.now) }
{
    if values.is_empty() {
        return &[];
    }
    &values[1..]
}

/// The values as parts.
pub(crate) fn parts(alloc: Global, values: &[Value]) -> Result<Vec<Part>, AllocError>
    ensures { IfOk result (λ ps. ps.items ≡ parts_of (map result_of values.now)) }
{
    let mut parts = Vec::new(alloc);
    for v in values {
        parts.push(v.part())?;
    }
    Ok(parts)
}
