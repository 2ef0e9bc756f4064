// The symbols of tokens.
ghost use Rattle.std.specs.Prelude.{◌≡◌};
ghost use Rattle.tl_tree.specs.Symbols as spec;
ghost use Rattle.tl_parse.specs.Views.Ranks as ranks;
ghost use Rattle.tl_parse.specs.Views.Expressions.{simple_symbols};
ghost use Rattle.tl_parse.specs.Views.Blocks.{plain_statements};
ghost use Rattle.tl_tree.specs.LuaExpressions.{prefix_symbols, suffix_symbols};

use tl_tree::Symbol;

/// A number for each symbol.
pub(crate) fn number_of(symbol: Symbol) -> u8
    ensures { result ≡ spec.number_of symbol }
{
    match symbol {
        Symbol::And => 0,
        Symbol::Break => 1,
        Symbol::Do => 2,
        Symbol::Else => 3,
        Symbol::Elseif => 4,
        Symbol::End => 5,
        Symbol::False => 6,
        Symbol::For => 7,
        Symbol::Function => 8,
        Symbol::If => 9,
        Symbol::In => 10,
        Symbol::Local => 11,
        Symbol::Nil => 12,
        Symbol::Not => 13,
        Symbol::Or => 14,
        Symbol::Repeat => 15,
        Symbol::Return => 16,
        Symbol::Then => 17,
        Symbol::True => 18,
        Symbol::Until => 19,
        Symbol::While => 20,
        Symbol::Terra => 21,
        Symbol::Quote => 22,
        Symbol::Escape => 23,
        Symbol::Emit => 24,
        Symbol::Struct => 25,
        Symbol::Var => 26,
        Symbol::Plus => 27,
        Symbol::Minus => 28,
        Symbol::Star => 29,
        Symbol::Slash => 30,
        Symbol::Percent => 31,
        Symbol::Caret => 32,
        Symbol::Hash => 33,
        Symbol::DoubleEqual => 34,
        Symbol::NotEqual => 35,
        Symbol::LessEqual => 36,
        Symbol::GreaterEqual => 37,
        Symbol::Less => 38,
        Symbol::Greater => 39,
        Symbol::Equal => 40,
        Symbol::OpenParen => 41,
        Symbol::CloseParen => 42,
        Symbol::OpenBrace => 43,
        Symbol::CloseBrace => 44,
        Symbol::OpenBracket => 45,
        Symbol::CloseBracket => 46,
        Symbol::Semicolon => 47,
        Symbol::Colon => 48,
        Symbol::DoubleColon => 49,
        Symbol::Comma => 50,
        Symbol::Dot => 51,
        Symbol::DoubleDot => 52,
        Symbol::Ellipsis => 53,
        Symbol::Arrow => 54,
        Symbol::At => 55,
        Symbol::Ampersand => 56,
        Symbol::DoubleLess => 57,
        Symbol::DoubleGreater => 58,
        Symbol::Backtick => 59,
        Symbol::Name => 60,
        Symbol::Numeral => 61,
        Symbol::LongNumeral => 62,
        Symbol::UnsignedNumeral => 63,
        Symbol::Literal => 64,
        Symbol::Bad(_) => 65,
        Symbol::Finish => 66,
    }
}

/// The rank that a token has behind all operators.
pub(crate) const NO_OPERATOR: u8 = 6;

/// The rank of `..`.
pub(crate) const CONCATENATION: u8 = 2;

/// The rank of the operator that a token is between two operands of Lua code: 0 is the highest precedence. Tokens that
/// are none, and `->`, stand behind all ranks.
#[inline(always)]
pub(crate) fn rank_of(symbol: Symbol) -> u8
    ensures { result ≡ ranks.rank_of symbol }
{
    match symbol {
        Symbol::Star | Symbol::Slash | Symbol::Percent => 0,
        Symbol::Plus | Symbol::Minus => 1,
        Symbol::DoubleDot => CONCATENATION,
        Symbol::Less | Symbol::Greater | Symbol::LessEqual => 3,
        Symbol::GreaterEqual | Symbol::NotEqual | Symbol::DoubleEqual => 3,
        Symbol::And => 4,
        Symbol::Or => 5,
        _ => NO_OPERATOR,
    }
}

/// The rank from which it goes on behind an operator and its right operand.
pub(crate) fn rank_behind(rank: u8) -> u8
    ensures { result ≡ ranks.rank_behind rank }
{
    if rank == CONCATENATION { 3 } else { rank }
}

/// The operators before an operand of Lua code.
pub(crate) fn is_prefix(symbol: Symbol) -> bool
    ensures { result ≡ spec.has prefix_symbols (spec.number_of symbol) }
{
    match symbol {
        Symbol::Not | Symbol::Hash | Symbol::Minus | Symbol::Ampersand => true,
        _ => false,
    }
}

/// The tokens that begin an operand of Lua code that is no prefix expression.
pub(crate) fn is_simple(symbol: Symbol) -> bool
    ensures { result ≡ spec.has simple_symbols (spec.number_of symbol) }
{
    match symbol {
        Symbol::Numeral | Symbol::Literal | Symbol::Nil | Symbol::False | Symbol::True => true,
        Symbol::Function | Symbol::OpenBrace => true,
        Symbol::Terra | Symbol::Struct | Symbol::Quote | Symbol::Backtick => true,
        _ => false,
    }
}

/// The tokens that follow a prefix expression of Lua code, and belong to it.
#[inline(always)]
pub(crate) fn is_suffix(symbol: Symbol) -> bool
    ensures { result ≡ spec.has suffix_symbols (spec.number_of symbol) }
{
    match symbol {
        Symbol::OpenParen | Symbol::OpenBracket | Symbol::Dot | Symbol::Colon => true,
        Symbol::OpenBrace | Symbol::Literal => true,
        _ => false,
    }
}

/// The tokens that begin a statement of Lua code, in a loop or not.
pub(crate) fn is_statement(symbol: Symbol) -> bool
    ensures { result ≡ spec.has plain_statements (spec.number_of symbol) }
{
    match symbol {
        Symbol::Name | Symbol::OpenParen | Symbol::Do | Symbol::While | Symbol::Repeat => true,
        Symbol::If | Symbol::For | Symbol::Function | Symbol::Local | Symbol::Return => true,
        Symbol::Terra | Symbol::Struct => true,
        _ => false,
    }
}

/// Whether one of the symbols has this number.
#[inline(always)]
pub(crate) fn has(symbols: &[Symbol], number: u8) -> bool
    ensures { result ≡ spec.has symbols.now number }
{
    for symbol in symbols {
        if number_of(*symbol) == number {
            return true;
        }
    }
    false
}
