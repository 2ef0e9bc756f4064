//! The trees of Lua and Terra code, the grammar that says which text has which tree, and which token of a text that
//! has none is refused, and why.
#![tactic(auto)]

pub mod binding_laws;
pub mod code;
pub mod laws;
pub mod mode;
pub mod node;
pub mod numeral;
pub mod scope;
mod spelling;
pub mod symbol;
pub mod tree;

pub use mode::{Context, Mode, OperandKind, TokenUse};
pub use node::{
    BinaryOperator, Expression, Node, NodeList, Piece, Statement, TerraExpression, TerraStatement,
    UnaryOperator,
};
pub use numeral::numeral_value;
pub use scope::{Binder, Scope};
pub use spelling::symbol_of;
pub use symbol::Symbol;
pub use tree::Tree;
