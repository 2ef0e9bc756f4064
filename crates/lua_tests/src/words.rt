// What the words of a row stand for.

use lua_table::Heap;
use lua_value::{Kind, LibFn, Number, Primitive, Value};
use row_words::word_at;
use tl_base::{
    ClosureId, ConstantId, FnId, GlobalId, MacroId, NoMemory, QuoteId, SymId, TableId, TypeId,
};

/// The value that a word of a row stands for. A text is interned; `x:12` is one of so many x.
pub fn value_at(heap: &mut Heap, words: &[&str], place: usize) -> Result<Value, NoMemory> {
    let word = word_at(words, place);
    match word.as_bytes() {
        [b'\'', ..] => {
            let bytes = bytes_of(heap, word)?;
            text_value(heap, &bytes)
        }
        [b'x', b':', ..] => {
            let count = match word.split_once(':') {
                Some((_, count)) => count.parse::<u64>().unwrap_or(0).min(100_000),
                None => 0,
            };
            let bytes = vec![in heap.allocator(); b'x'; count as usize]?;
            text_value(heap, &bytes)
        }
        _ => Ok(plain_value(word)),
    }
}

/// The text of these bytes, and nil where they are too many.
pub fn text_value(heap: &mut Heap, bytes: &[u8]) -> Result<Value, NoMemory> {
    if bytes.len() <= 65_535 {
        Ok(Value::Text(heap.intern(bytes)?))
    } else {
        Ok(Value::Nil)
    }
}

/// The bytes that a text in a row writes.
pub fn bytes_of(heap: &Heap, word: &str) -> Result<Vec<u8>, NoMemory> {
    let mut bytes = Vec::new(heap.allocator());
    let mut control = false;
    for byte in word.as_bytes() {
        match byte {
            b'\'' => {}
            b'^' => control = true,
            b'~' => bytes.push(b' ')?,
            _ if control => {
                control = false;
                bytes.push(*byte & 31)?;
            }
            _ => bytes.push(*byte)?,
        }
    }
    Ok(bytes)
}

fn plain_value(word: &str) -> Value {
    match word {
        "nil" => Value::Nil,
        "true" => Value::Boolean(true),
        "false" => Value::Boolean(false),
        "putbyte" => Value::Primitive(Primitive::PutByte),
        "write" => Value::Primitive(Primitive::Write),
        "alloc" => Value::Primitive(Primitive::Alloc),
        _ => match word.split_once(':') {
            Some(("lib", name)) => library_value(name),
            Some((kind, number)) => numbered_value(kind, number.parse::<u64>().unwrap_or(0)),
            None => number_value(word),
        },
    }
}

/// The number that a word writes, and nil where it writes none of the profile.
fn number_value(word: &str) -> Value {
    match word.parse::<i64>() {
        Ok(number) => match Number::new(number) {
            Some(number) => Value::Number(number),
            None => Value::Nil,
        },
        Err(_) => Value::Nil,
    }
}

/// The value of a kind with this number, and nil where the kind's values have none.
fn numbered_value(kind: &str, number: u64) -> Value {
    match kind {
        "table" => Value::Table(TableId(number)),
        "function" => Value::Closure(ClosureId(number)),
        "terrafunction" => Value::TerraFunction(FnId(number)),
        "terratype" => Value::TerraType(TypeId(number)),
        "quote" => Value::Quote(QuoteId(number)),
        "symbol" => Value::Symbol(SymId(number)),
        "macro" => Value::Macro(MacroId(number)),
        "global" => Value::Global(GlobalId(number)),
        "constant" => Value::Constant(ConstantId(number)),
        _ => Value::Nil,
    }
}

/// All functions of the library, in their order.
const LIBRARY: [LibFn; 53] = [
    LibFn::Assert,
    LibFn::Error,
    LibFn::GetMetatable,
    LibFn::Ipairs,
    LibFn::IpairsNext,
    LibFn::Next,
    LibFn::Pairs,
    LibFn::Pcall,
    LibFn::Print,
    LibFn::RawEqual,
    LibFn::RawGet,
    LibFn::RawSet,
    LibFn::Select,
    LibFn::SetMetatable,
    LibFn::ToNumber,
    LibFn::ToString,
    LibFn::Type,
    LibFn::Unpack,
    LibFn::Byte,
    LibFn::Char,
    LibFn::Format,
    LibFn::Len,
    LibFn::Rep,
    LibFn::Sub,
    LibFn::Concat,
    LibFn::TableInsert,
    LibFn::Remove,
    LibFn::Field,
    LibFn::ArrayType,
    LibFn::PointerType,
    LibFn::FunctionType,
    LibFn::Symbol,
    LibFn::Macro,
    LibFn::Global,
    LibFn::Constant,
    LibFn::SizeOf,
    LibFn::OffsetOf,
    LibFn::NewList,
    LibFn::Insert,
    LibFn::InsertAll,
    LibFn::Map,
    LibFn::NewStruct,
    LibFn::Pointer,
    LibFn::Array,
    LibFn::SaveObj,
    LibFn::Compile,
    LibFn::IsDefined,
    LibFn::GetType,
    LibFn::IsIntegral,
    LibFn::IsLogical,
    LibFn::IsPointer,
    LibFn::IsArray,
    LibFn::IsStruct,
];

/// The first function of the library with this name, and nil where there is none.
fn library_value(name: &str) -> Value {
    for function in &LIBRARY {
        if function.name() == name {
            return Value::Library(*function);
        }
    }
    Value::Nil
}

const KINDS: [Kind; 13] = [
    Kind::Nil,
    Kind::Boolean,
    Kind::Number,
    Kind::String,
    Kind::Table,
    Kind::Function,
    Kind::TerraFunction,
    Kind::TerraType,
    Kind::Quote,
    Kind::Symbol,
    Kind::Macro,
    Kind::Global,
    Kind::Constant,
];

/// The kind of this name, and nil's where there is none.
pub fn kind_at(words: &[&str], place: usize) -> Kind {
    let name = word_at(words, place);
    for kind in &KINDS {
        if kind.name() == name {
            return *kind;
        }
    }
    Kind::Nil
}
