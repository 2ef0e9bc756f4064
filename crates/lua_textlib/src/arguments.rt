// Arguments of functions of the library.

ghost use Rattle.std.specs.Prelude.{◌≡◌, ◌≤◌, [], length, IfOk};
ghost use Rattle.std.specs.Fmt.{signed_decimal};
ghost use Rattle.std.specs.Option.{option_map};
ghost use Rattle.lua_value.specs.Numbers.{IsInProfile};
ghost use Rattle.lua_base.specs.Arguments.{number_or};
ghost use Rattle.lua_textlib.specs.Arguments.{text_in, text_or, bytes_in};

use lua_base::number_in;
use lua_table::Heap;
use lua_value::{Number, Value};
use tl_base::{NoMemory, TableId, Text, TextId};

/// The bytes that an argument is as a text: those of a text, which stay in the heap, the decimal text of a number, or none where the
/// argument may be left out.
#[derive(Drop)]
pub enum Piece {
    Text(TextId),
    Decimal(Text),
    Empty,
}

impl Piece {
    /// The bytes.
    pub fn bytes<'a>(&'a self, heap: &'a Heap) -> &'a [u8]
        ensures bytes { result.now ≡ bytes_in heap.now self.now }
        ensures within { length result.now ≤ Text.MAX_LEN }
    {
        match self {
            Piece::Text(text) => heap.text(*text),
            Piece::Decimal(text) => text.bytes(),
            Piece::Empty => &[],
        }
    }
}

/// What a value is as a text (Lua 5.1 manual, section 2.2.1), and `None` where it is neither a text nor a number.
pub fn text_in(heap: &Heap, value: Value) -> Result<Option<Piece>, NoMemory>
    ensures { IfOk result (λ piece. option_map (bytes_in heap.now) piece ≡ text_in heap.now value) }
{
    match value {
        Value::Text(text) => Ok(Some(Piece::Text(text))),
        Value::Number(number) => Ok(Some(Piece::Decimal(decimal(heap, number)?))),
        _ => Ok(None),
    }
}

#[tactic(auto, using(crate::proofs::Shortness::number_is_short))]
/// A number in decimal.
pub fn decimal(heap: &Heap, number: Number) -> Result<Text, NoMemory>
    ensures { IfOk result (λ text. text ≡ signed_decimal number) }
{
    let number = number.get();
    let text = format!(in heap.allocator(); "{number}")?;
    match Text::new(heap.allocator(), text.as_bytes())? {
        Some(text) => Ok(text),
        None => unreachable!(),
    }
}

/// What an argument is as a text that need not be there: then it is empty.
pub fn text_or_empty(heap: &Heap, value: Value) -> Result<Option<Piece>, NoMemory>
    ensures { IfOk result (λ piece. option_map (bytes_in heap.now) piece ≡ text_or heap.now value []) }
{
    if value.is_nil() {
        return Ok(Some(Piece::Empty));
    }
    text_in(heap, value)
}

/// The number that an argument is, which need not be there.
pub fn number_or(heap: &Heap, value: Value, default: Number) -> Option<Number>
    ensures { result ≡ number_or heap.now value default }
{
    if value.is_nil() {
        return Some(default);
    }
    number_in(heap, value)
}

/// A number that there is.
pub fn number(value: i64) -> Number
    requires { IsInProfile value }
    ensures { result ≡ value }
{
    match Number::new(value) {
        Some(number) => number,
        None => unreachable!(),
    }
}
