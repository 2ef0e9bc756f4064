// The operators of Terra code, and the types of numerals.

ghost use Rattle.std.specs.Prelude.{◌≡◌};
ghost use Rattle.spec_model.specs.Nodes as nodes;
ghost use Rattle.spec_model.specs.Expressions.{largest_of, numeral_value};

use terra_term::UnaryOperator;
use terra_words::BinaryOperator;
use tl_base::TypeId;
use tl_tree::{BinaryOperator as Written, UnaryOperator as WrittenUnary};

/// The types of numerals, which are there from the begin.
const INT32: TypeId = TypeId(2);

const INT64: TypeId = TypeId(3);

const UINT64: TypeId = TypeId(7);

/// The operator between two operands that is written so. No Terra code has `->` or `..`.
pub fn operator(written: Written) -> BinaryOperator
    ensures { result ≡ nodes.operator_of written }
{
    match written {
        Written::Arrow | Written::Or => BinaryOperator::Or,
        Written::And => BinaryOperator::And,
        Written::Less => BinaryOperator::Less,
        Written::Greater => BinaryOperator::Greater,
        Written::LessEqual => BinaryOperator::LessEqual,
        Written::GreaterEqual => BinaryOperator::GreaterEqual,
        Written::NotEqual => BinaryOperator::NotEqual,
        Written::Equal => BinaryOperator::Equal,
        Written::Concatenate | Written::Add => BinaryOperator::Add,
        Written::ShiftLeft => BinaryOperator::ShiftLeft,
        Written::ShiftRight => BinaryOperator::ShiftRight,
        Written::Subtract => BinaryOperator::Subtract,
        Written::Multiply => BinaryOperator::Multiply,
        Written::Divide => BinaryOperator::Divide,
        Written::Modulo => BinaryOperator::Modulo,
        Written::Power => BinaryOperator::Xor,
    }
}

/// The operator before one operand that is written so. No Terra code has `#`.
pub fn unary(written: WrittenUnary) -> UnaryOperator
    ensures { result ≡ nodes.unary_of written }
{
    match written {
        WrittenUnary::Not | WrittenUnary::Length => UnaryOperator::Not,
        WrittenUnary::Negate => UnaryOperator::Negate,
        WrittenUnary::Address => UnaryOperator::Address,
        WrittenUnary::Dereference => UnaryOperator::Dereference,
    }
}

/// The largest numeral of a type.
fn largest_of(of: TypeId) -> u64
    ensures { result ≡ largest_of of }
{
    if of == UINT64 {
        u64::MAX
    } else if of == INT64 {
        i64::MAX as u64
    } else {
        i32::MAX as u64
    }
}

/// The number of a numeral.
pub fn numeral(digits: &str) -> u64
    ensures { result ≡ numeral_value digits.now }
{
    match tl_tree::numeral_value(digits) {
        Some(number) if number <= largest_of(numeral_type(digits)) => number,
        _ => 0,
    }
}

/// The type of a numeral, by its suffix: `ULL`, `LL` or none.
pub fn numeral_type(digits: &str) -> TypeId
    ensures { result ≡ nodes.numeral_type digits.now }
{
    let text = digits.as_bytes();
    if text.ends_with(b"ULL".as_slice()) {
        UINT64
    } else if text.ends_with(b"LL".as_slice()) {
        INT64
    } else {
        INT32
    }
}
