// Operators by their signs.

use terra_words::BinaryOperator;

/// The operator that a word writes, and the sum for every other word.
pub fn operator_of(word: &str) -> BinaryOperator {
    match word {
        "-" => BinaryOperator::Subtract,
        "*" => BinaryOperator::Multiply,
        "/" => BinaryOperator::Divide,
        "%" => BinaryOperator::Modulo,
        "^" => BinaryOperator::Xor,
        "and" => BinaryOperator::And,
        "or" => BinaryOperator::Or,
        "<<" => BinaryOperator::ShiftLeft,
        ">>" => BinaryOperator::ShiftRight,
        "==" => BinaryOperator::Equal,
        "~=" => BinaryOperator::NotEqual,
        "<" => BinaryOperator::Less,
        "<=" => BinaryOperator::LessEqual,
        ">" => BinaryOperator::Greater,
        ">=" => BinaryOperator::GreaterEqual,
        _ => BinaryOperator::Add,
    }
}
