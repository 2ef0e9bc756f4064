// The pieces that a text is put together from.

ghost use Rattle.std.specs.Prelude.{◌≡◌};
ghost use Rattle.lua_value.specs.Library.{primitive_text};
ghost use Rattle.terra_term.specs.Pieces.{word_text, part_of};
ghost use Rattle.terra_term.specs.TermText.{unary_text, binary_text, integer_text};

use crate::operators::UnaryOperator;
use lua_value::Primitive;
use terra_types::Integer;
use terra_words::BinaryOperator;
use tl_base::{FnId, MacroId, SymId, TermId, TextId, TypeId};

/// Fixed texts.
#[derive(Clone, Copy, PartialEq, Eq)]
pub enum Word {
    Open,
    Close,
    Space,
    Colon,
    Unwritten,
    True,
    False,
    Nil,
    SizeOf,
    Static,
    Global,
    Type,
    Macro,
    Call,
    Method,
    Dot,
    Index,
    New,
    Let,
    Var,
    Set,
    If,
    Do,
    While,
    Repeat,
    For,
    By,
    Break,
    Return,
    Perform,
    Fn,
    Bool,
    Unit,
    Pointer,
    OpenIndex,
    CloseIndex,
    OpenBrace,
    Comma,
    Arrow,
    Struct,
}

/// A piece of a text: one that is written at once, or the text of a node.
#[derive(Clone, Copy, PartialEq, Eq)]
pub enum Piece {
    Word(Word),
    Unary(UnaryOperator),
    Binary(BinaryOperator),
    Primitive(Primitive),
    Symbol(SymId),
    Function(FnId),
    Integer(Integer),
    /// A word of 64 bits as a number of a type.
    Number(u64, TypeId),
    /// A number in decimal.
    Decimal(u64),
    Macro(MacroId),
    Type(TypeId),
    /// A type among those before a number.
    TypeBefore(TypeId, u64),
    Name(TextId),
    /// An expression among the nodes before a number.
    Expression(TermId, u64),
    /// A statement among the nodes before a number.
    Statement(TermId, u64),
}

/// Whether a part is wanted as an expression or as a statement.
#[derive(Clone, Copy, PartialEq, Eq)]
pub enum PartKind {
    Expression,
    Statement,
}

impl PartKind {
    /// A part of this kind, among the nodes before a number.
    pub fn part(self, below: u64, term: TermId) -> Piece
        ensures { result ≡ part_of self below term }
    {
        match self {
            PartKind::Expression => Piece::Expression(term, below),
            PartKind::Statement => Piece::Statement(term, below),
        }
    }
}

impl Word {
    /// The bytes.
    pub fn text(self) -> &'static [u8]
        ensures { result.now ≡ word_text self }
    {
        match self {
            Word::Open => b"(",
            Word::Close => b")",
            Word::Space => b" ",
            Word::Colon => b":",
            Word::Unwritten => b"?",
            Word::True => b"true",
            Word::False => b"false",
            Word::Nil => b"nil",
            Word::SizeOf => b"sizeof",
            Word::Static => b"static",
            Word::Global => b"global",
            Word::Type => b"type",
            Word::Macro => b"macro",
            Word::Call => b"call",
            Word::Method => b"method",
            Word::Dot => b".",
            Word::Index => b"index",
            Word::New => b"new",
            Word::Let => b"let",
            Word::Var => b"var",
            Word::Set => b"set",
            Word::If => b"if",
            Word::Do => b"do",
            Word::While => b"while",
            Word::Repeat => b"repeat",
            Word::For => b"for",
            Word::By => b"by",
            Word::Break => b"break",
            Word::Return => b"return",
            Word::Perform => b"expr",
            Word::Fn => b"fn",
            Word::Bool => b"bool",
            Word::Unit => b"{}",
            Word::Pointer => b"&",
            Word::OpenIndex => b"[",
            Word::CloseIndex => b"]",
            Word::OpenBrace => b"{",
            Word::Comma => b", ",
            Word::Arrow => b"} -> ",
            Word::Struct => b"struct ",
        }
    }
}

/// The text of an operator before one operand.
pub fn text_of_unary(operator: UnaryOperator) -> &'static [u8]
    ensures { result.now ≡ unary_text operator }
{
    match operator {
        UnaryOperator::Negate => b"neg",
        UnaryOperator::Not => b"not",
        UnaryOperator::Dereference => b"@",
        UnaryOperator::Address => b"&",
    }
}

/// The text of an operator between two operands.
pub fn text_of_binary(operator: BinaryOperator) -> &'static [u8]
    ensures { result.now ≡ binary_text operator }
{
    match operator {
        BinaryOperator::Add => b"+",
        BinaryOperator::Subtract => b"-",
        BinaryOperator::Multiply => b"*",
        BinaryOperator::Divide => b"/",
        BinaryOperator::Modulo => b"%",
        BinaryOperator::Xor => b"^",
        BinaryOperator::And => b"and",
        BinaryOperator::Or => b"or",
        BinaryOperator::ShiftLeft => b"<<",
        BinaryOperator::ShiftRight => b">>",
        BinaryOperator::Equal => b"==",
        BinaryOperator::NotEqual => b"~=",
        BinaryOperator::Less => b"<",
        BinaryOperator::LessEqual => b"<=",
        BinaryOperator::Greater => b">",
        BinaryOperator::GreaterEqual => b">=",
    }
}

/// The text of a function of Terra's library.
pub fn text_of_primitive(primitive: Primitive) -> &'static [u8]
    ensures { result.now ≡ primitive_text primitive }
{
    primitive.name().as_bytes()
}

/// The text of an integer type.
pub fn text_of_integer(integer: Integer) -> &'static [u8]
    ensures { result.now ≡ integer_text integer }
{
    match integer {
        Integer::Int8 => b"int8",
        Integer::Int16 => b"int16",
        Integer::Int32 => b"int32",
        Integer::Int64 => b"int64",
        Integer::Uint8 => b"uint8",
        Integer::Uint16 => b"uint16",
        Integer::Uint32 => b"uint32",
        Integer::Uint64 => b"uint64",
    }
}
