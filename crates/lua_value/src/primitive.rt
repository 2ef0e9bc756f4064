// The functions that Terra's library gives.

ghost use Rattle.std.specs.Prelude.{◌≡◌};
ghost use Rattle.lua_value.specs.Library.{primitive_text};
ghost use Rattle.lua_value.specs.Values.{primitive_number};

/// A function that Terra's library gives. It is called in Terra code alone.
#[derive(Clone, Copy, PartialEq, Eq, Hash)]
pub enum Primitive {
    PutByte,
    Write,
    Alloc,
}

impl Primitive {
    /// The function's name.
    pub fn name(self) -> &'static str
        ensures { result.now ≡ primitive_text self }
    {
        match self {
            Primitive::PutByte => "putbyte",
            Primitive::Write => "write",
            Primitive::Alloc => "alloc",
        }
    }

    /// The function's place in the order above, from 0.
    pub fn number(self) -> u64
        ensures { result ≡ primitive_number self }
    {
        match self {
            Primitive::PutByte => 0,
            Primitive::Write => 1,
            Primitive::Alloc => 2,
        }
    }
}
