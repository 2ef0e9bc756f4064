// The arguments of functions of the library.

ghost use Rattle.std.specs.Prelude.{◌≡◌, ◌≤◌, unsigned_abs, IfSome};
ghost use Rattle.lua_base.specs.Arguments.{argument, has_argument, number_in, number_or, table_in};

use lua_ops::numeral_of;
use lua_table::Heap;
use lua_value::{Number, Value};
use tl_base::TableId;

/// The argument of a number, from 0, which is nil where it isn't there.
pub fn argument(args: &[Value], place: usize) -> Value
    ensures { result ≡ argument args.now place }
{
    match args.get(place) {
        Some(value) => *value,
        None => Value::Nil,
    }
}

/// Tells whether there is an argument of a number, from 0.
pub fn has_argument(args: &[Value], place: usize) -> bool
    ensures { result ≡ has_argument args.now place }
{
    place < args.len()
}

/// The number that an argument is. A text that arithmetic turns into a number stands for it.
pub fn number_in(heap: &Heap, value: Value) -> Option<Number>
    ensures { result ≡ number_in heap.now value }
{
    match value {
        Value::Number(number) => Some(number),
        Value::Text(id) => numeral_of(heap.text(id)),
        _ => None,
    }
}

/// The number that an argument is, and another one where it is nil.
pub fn number_or(heap: &Heap, value: Value, other: i128) -> Option<i128>
    requires { unsigned_abs other ≤ 18446744073709551615 }
    ensures number { result ≡ number_or heap.now value other }
    ensures within { IfSome result (λ z. unsigned_abs z ≤ 18446744073709551615) }
{
    if value.is_nil() {
        return Some(other);
    }
    match number_in(heap, value) {
        Some(number) => Some(i128::from(number.get())),
        None => None,
    }
}

/// The table that an argument is.
pub fn table_in(value: Value) -> Option<TableId>
    ensures { result ≡ table_in value }
{
    match value {
        Value::Table(table) => Some(table),
        _ => None,
    }
}
