// The functions of the library, which are values.

ghost use Rattle.std.specs.Prelude.{◌≡◌};
ghost use Rattle.lua_value.specs.Library.{library_text, library_number};

/// A function of the library: one that the opening globals name (manual, section 5.1), or one that the language itself calls where
/// Lua code works on a Terra value.
#[derive(Clone, Copy, PartialEq, Eq, Hash)]
pub enum LibFn {
    // The basic functions (section 5.1).
    Assert,
    Error,
    GetMetatable,
    Ipairs,
    /// The function that `ipairs` gives, which goes to the next number of a table.
    IpairsNext,
    Next,
    Pairs,
    Pcall,
    Print,
    RawEqual,
    RawGet,
    RawSet,
    Select,
    SetMetatable,
    ToNumber,
    ToString,
    Type,
    Unpack,
    // The functions on texts (section 5.4).
    Byte,
    Char,
    Format,
    Len,
    Rep,
    Sub,
    // The functions on tables (section 5.5).
    Concat,
    TableInsert,
    Remove,
    // What the language itself calls where Lua code works on a Terra value.
    /// A field of a Terra value, by any key but a type's numbers.
    Field,
    /// `T[n]`: the array type of a type and a number.
    ArrayType,
    /// `&T`: the pointer type of a type.
    PointerType,
    /// `A -> R`: the function type of the types of parameters and of the type of a result.
    FunctionType,
    // The functions that work on Terra code.
    Symbol,
    Macro,
    Global,
    Constant,
    SizeOf,
    OffsetOf,
    NewList,
    /// `insert` of a list that `newlist` gives.
    Insert,
    InsertAll,
    Map,
    NewStruct,
    Pointer,
    Array,
    SaveObj,
    Compile,
    IsDefined,
    GetType,
    IsIntegral,
    IsLogical,
    IsPointer,
    IsArray,
    IsStruct,
}

impl LibFn {
    /// The function's name.
    pub fn name(self) -> &'static str
        ensures { result.now ≡ library_text self }
    {
        match self {
            LibFn::Assert => "assert",
            LibFn::Error => "error",
            LibFn::GetMetatable => "getmetatable",
            LibFn::Ipairs => "ipairs",
            LibFn::IpairsNext => "ipairs",
            LibFn::Next => "next",
            LibFn::Pairs => "pairs",
            LibFn::Pcall => "pcall",
            LibFn::Print => "print",
            LibFn::RawEqual => "rawequal",
            LibFn::RawGet => "rawget",
            LibFn::RawSet => "rawset",
            LibFn::Select => "select",
            LibFn::SetMetatable => "setmetatable",
            LibFn::ToNumber => "tonumber",
            LibFn::ToString => "tostring",
            LibFn::Type => "type",
            LibFn::Unpack => "unpack",
            LibFn::Byte => "byte",
            LibFn::Char => "char",
            LibFn::Format => "format",
            LibFn::Len => "len",
            LibFn::Rep => "rep",
            LibFn::Sub => "sub",
            LibFn::Concat => "concat",
            LibFn::TableInsert => "insert",
            LibFn::Remove => "remove",
            LibFn::Field => "field",
            LibFn::ArrayType => "array",
            LibFn::PointerType => "pointer",
            LibFn::FunctionType => "function",
            LibFn::Symbol => "symbol",
            LibFn::Macro => "macro",
            LibFn::Global => "global",
            LibFn::Constant => "constant",
            LibFn::SizeOf => "sizeof",
            LibFn::OffsetOf => "offsetof",
            LibFn::NewList => "newlist",
            LibFn::Insert => "insert",
            LibFn::InsertAll => "insertall",
            LibFn::Map => "map",
            LibFn::NewStruct => "newstruct",
            LibFn::Pointer => "pointer",
            LibFn::Array => "array",
            LibFn::SaveObj => "saveobj",
            LibFn::Compile => "compile",
            LibFn::IsDefined => "isdefined",
            LibFn::GetType => "gettype",
            LibFn::IsIntegral => "isintegral",
            LibFn::IsLogical => "islogical",
            LibFn::IsPointer => "ispointer",
            LibFn::IsArray => "isarray",
            LibFn::IsStruct => "isstruct",
        }
    }

    /// The function's place in the order above, from 0.
    pub fn number(self) -> u64
        ensures { result ≡ library_number self }
    {
        match self {
            LibFn::Assert => 0,
            LibFn::Error => 1,
            LibFn::GetMetatable => 2,
            LibFn::Ipairs => 3,
            LibFn::IpairsNext => 4,
            LibFn::Next => 5,
            LibFn::Pairs => 6,
            LibFn::Pcall => 7,
            LibFn::Print => 8,
            LibFn::RawEqual => 9,
            LibFn::RawGet => 10,
            LibFn::RawSet => 11,
            LibFn::Select => 12,
            LibFn::SetMetatable => 13,
            LibFn::ToNumber => 14,
            LibFn::ToString => 15,
            LibFn::Type => 16,
            LibFn::Unpack => 17,
            LibFn::Byte => 18,
            LibFn::Char => 19,
            LibFn::Format => 20,
            LibFn::Len => 21,
            LibFn::Rep => 22,
            LibFn::Sub => 23,
            LibFn::Concat => 24,
            LibFn::TableInsert => 25,
            LibFn::Remove => 26,
            LibFn::Field => 27,
            LibFn::ArrayType => 28,
            LibFn::PointerType => 29,
            LibFn::FunctionType => 30,
            LibFn::Symbol => 31,
            LibFn::Macro => 32,
            LibFn::Global => 33,
            LibFn::Constant => 34,
            LibFn::SizeOf => 35,
            LibFn::OffsetOf => 36,
            LibFn::NewList => 37,
            LibFn::Insert => 38,
            LibFn::InsertAll => 39,
            LibFn::Map => 40,
            LibFn::NewStruct => 41,
            LibFn::Pointer => 42,
            LibFn::Array => 43,
            LibFn::SaveObj => 44,
            LibFn::Compile => 45,
            LibFn::IsDefined => 46,
            LibFn::GetType => 47,
            LibFn::IsIntegral => 48,
            LibFn::IsLogical => 49,
            LibFn::IsPointer => 50,
            LibFn::IsArray => 51,
            LibFn::IsStruct => 52,
        }
    }
}
