// The text of a tree.
use std::alloc::Global;
use tl_base::{NoMemory, NodeId};
use tl_tree::{
    BinaryOperator, Expression, Node, Piece, Statement, TerraExpression, TerraStatement, Tree,
    UnaryOperator,
};

fn binary(operator: BinaryOperator) -> &'static str {
    match operator {
        BinaryOperator::Arrow => "->",
        BinaryOperator::Or => "or",
        BinaryOperator::And => "and",
        BinaryOperator::Less => "<",
        BinaryOperator::Greater => ">",
        BinaryOperator::LessEqual => "<=",
        BinaryOperator::GreaterEqual => ">=",
        BinaryOperator::NotEqual => "~=",
        BinaryOperator::Equal => "==",
        BinaryOperator::Concatenate => "..",
        BinaryOperator::ShiftLeft => "<<",
        BinaryOperator::ShiftRight => ">>",
        BinaryOperator::Add => "+",
        BinaryOperator::Subtract => "-",
        BinaryOperator::Multiply => "*",
        BinaryOperator::Divide => "/",
        BinaryOperator::Modulo => "%",
        BinaryOperator::Power => "^",
    }
}

fn unary(operator: UnaryOperator) -> &'static str {
    match operator {
        UnaryOperator::Not => "not",
        UnaryOperator::Length => "len",
        UnaryOperator::Negate => "neg",
        UnaryOperator::Address => "&",
        UnaryOperator::Dereference => "@",
    }
}

/// The text of a tree without its places: each node in brackets behind a word that says what it is, a block in square
/// brackets, and names, numbers and texts as the source has them. A child that doesn't stand before its node, as in
/// the tree of no text, is left out.
///
/// `NoMemory` comes where memory for the text was not found.
pub(crate) fn text_of(alloc: Global, tree: &Tree) -> Result<String, NoMemory> {
    let mut out = String::new(alloc);
    node(tree, tree.root(), &mut out)?;
    Ok(out)
}

/// The nodes of a list, one after the other with this between them. The children of a node stand before it, so each
/// has a smaller number.
#[cycle(shown)]
fn nodes(
    tree: &Tree,
    ids: &[NodeId],
    between: &str,
    parent: NodeId,
    out: &mut String,
) -> Result<(), NoMemory> {
    let mut first = true;
    for id in ids {
        if !first {
            out.push_str(between)?;
        }
        first = false;
        if id.0 < parent.0 {
            node(tree, *id, out)?;
        }
    }
    Ok(())
}

/// A word and nodes behind it, in brackets.
#[cycle(shown)]
fn form(
    tree: &Tree,
    word: &str,
    ids: &[NodeId],
    parent: NodeId,
    out: &mut String,
) -> Result<(), NoMemory> {
    out.push_str("(")?;
    out.push_str(word)?;
    if !ids.is_empty() {
        out.push_str(" ")?;
    }
    list(tree, "", ids, ")", parent, out)
}

/// A list of nodes between two texts.
#[cycle(shown)]
fn list(
    tree: &Tree,
    open: &str,
    ids: &[NodeId],
    close: &str,
    parent: NodeId,
    out: &mut String,
) -> Result<(), NoMemory> {
    out.push_str(open)?;
    nodes(tree, ids, " ", parent, out)?;
    out.push_str(close)?;
    Ok(())
}

/// Two lists behind a word.
#[cycle(shown)]
fn lists(
    tree: &Tree,
    open: &str,
    a: &[NodeId],
    b: &[NodeId],
    parent: NodeId,
    out: &mut String,
) -> Result<(), NoMemory> {
    list(tree, open, a, ") (", parent, out)?;
    list(tree, "", b, "))", parent, out)
}

/// What a list belongs to, and the list.
#[cycle(shown)]
fn applied(
    tree: &Tree,
    open: &str,
    ids: &[NodeId],
    behind: &[NodeId],
    parent: NodeId,
    out: &mut String,
) -> Result<(), NoMemory> {
    list(tree, open, ids, "", parent, out)?;
    if !behind.is_empty() {
        out.push_str(" ")?;
    }
    list(tree, "", behind, ")", parent, out)
}

/// A node with those behind it that it has.
#[cycle(shown)]
fn node(tree: &Tree, id: NodeId, out: &mut String) -> Result<(), NoMemory> {
    match tree.node(id) {
        Node::Name(_, _, text) => out.push_str(text)?,
        Node::Numeral(_, text) => out.push_str(text)?,
        Node::Literal(_, text) => out.push_str(text)?,
        Node::Expression(_, e) => expression(tree, e, id, out)?,
        Node::Statement(_, s) => statement(tree, s, id, out)?,
        Node::TerraExpression(_, e) => terra_expression(tree, e, id, out)?,
        Node::TerraStatement(_, s) => terra_statement(tree, s, id, out)?,
        Node::Piece(p) => piece(tree, p, id, out)?,
    }
    Ok(())
}

#[cycle(shown)]
fn expression(tree: &Tree, e: &Expression, id: NodeId, out: &mut String) -> Result<(), NoMemory> {
    match e {
        Expression::Nil => out.push_str("nil")?,
        Expression::False => out.push_str("false")?,
        Expression::True => out.push_str("true")?,
        Expression::Varargs => out.push_str("...")?,
        Expression::Function(body) => form(tree, "function", &[*body], id, out)?,
        Expression::Table(fields) => list(tree, "{", fields.as_slice(), "}", id, out)?,
        Expression::Binary(operator, a, b) => form(tree, binary(*operator), &[*a, *b], id, out)?,
        Expression::Unary(operator, a) => form(tree, unary(*operator), &[*a], id, out)?,
        Expression::Paren(a) => form(tree, "paren", &[*a], id, out)?,
        Expression::Index(a, key) => form(tree, "[]", &[*a, *key], id, out)?,
        Expression::Select(a, name) => form(tree, ".", &[*a, *name], id, out)?,
        Expression::Call(f, arguments) => applied(
            tree,
            "(call ",
            &[*f],
            arguments.as_slice(),
            id,
            out,
        )?,
        Expression::Method(a, name, arguments) => applied(
            tree,
            "(: ",
            &[*a, *name],
            arguments.as_slice(),
            id,
            out,
        )?,
        Expression::Terra(body) => form(tree, "terra", &[*body], id, out)?,
        Expression::Struct(entries) => list(tree, "(struct {", entries.as_slice(), "})", id, out)?,
        Expression::Quote(code) => form(tree, "quote", &[*code], id, out)?,
        Expression::Backtick(code) => form(tree, "`", &[*code], id, out)?,
    }
    Ok(())
}

#[cycle(shown)]
fn statement(tree: &Tree, s: &Statement, id: NodeId, out: &mut String) -> Result<(), NoMemory> {
    match s {
        Statement::Assign(a, b) => lists(tree, "(= (", a.as_slice(), b.as_slice(), id, out)?,
        Statement::Call(call) => form(tree, "perform", &[*call], id, out)?,
        Statement::Do(block) => form(tree, "do", &[*block], id, out)?,
        Statement::While(condition, block) => form(tree, "while", &[*condition, *block], id, out)?,
        Statement::Repeat(block, condition) => form(
            tree,
            "repeat",
            &[*block, *condition],
            id,
            out,
        )?,
        Statement::If(arms, otherwise) => choice(tree, arms.as_slice(), *otherwise, id, out)?,
        Statement::NumericFor(name, from, limit, step, block) => {
            counted(tree, [*name, *from, *limit], *step, *block, id, out)?
        }
        Statement::GenericFor(names, values, block) => {
            list(tree, "(for (", names.as_slice(), ") in (", id, out)?;
            list(tree, "", values.as_slice(), ") ", id, out)?;
            list(tree, "", &[*block], ")", id, out)?;
        }
        Statement::Local(a, b) => lists(tree, "(local (", a.as_slice(), b.as_slice(), id, out)?,
        Statement::Return(values) => form(tree, "return", values.as_slice(), id, out)?,
        Statement::Break => out.push_str("break")?,
        Statement::Emit(value) => form(tree, "emit", &[*value], id, out)?,
        _ => definition(tree, s, id, out)?,
    }
    Ok(())
}

/// A statement that defines a function or a struct.
#[cycle(shown)]
fn definition(tree: &Tree, s: &Statement, id: NodeId, out: &mut String) -> Result<(), NoMemory> {
    match s {
        Statement::Function(path, body) => form(tree, "function", &[*path, *body], id, out)?,
        Statement::LocalFunction(name, body) => form(
            tree,
            "local function",
            &[*name, *body],
            id,
            out,
        )?,
        Statement::Terra(path, body) => form(tree, "terra", &[*path, *body], id, out)?,
        Statement::DeclareTerra(path, declared) => form(
            tree,
            "terra ::",
            &[*path, *declared],
            id,
            out,
        )?,
        Statement::LocalTerra(_, name, body) => form(
            tree,
            "local terra",
            &[*name, *body],
            id,
            out,
        )?,
        Statement::LocalDeclareTerra(_, name, declared) => form(
            tree,
            "local terra ::",
            &[*name, *declared],
            id,
            out,
        )?,
        Statement::Struct(path, entries) => {
            list(tree, "(struct ", &[*path], " {", id, out)?;
            list(tree, "", entries.as_slice(), "})", id, out)?;
        }
        Statement::LocalStruct(_, name, entries) => {
            list(tree, "(local struct ", &[*name], " {", id, out)?;
            list(tree, "", entries.as_slice(), "})", id, out)?;
        }
        _ => {}
    }
    Ok(())
}

#[cycle(shown)]
fn terra_expression(
    tree: &Tree,
    e: &TerraExpression,
    id: NodeId,
    out: &mut String,
) -> Result<(), NoMemory> {
    match e {
        TerraExpression::Nil => out.push_str("nil")?,
        TerraExpression::False => out.push_str("false")?,
        TerraExpression::True => out.push_str("true")?,
        TerraExpression::Binary(operator, a, b) => form(
            tree,
            binary(*operator),
            &[*a, *b],
            id,
            out,
        )?,
        TerraExpression::Unary(operator, a) => form(tree, unary(*operator), &[*a], id, out)?,
        TerraExpression::Paren(a) => form(tree, "paren", &[*a], id, out)?,
        TerraExpression::Escape(code) => form(tree, "escape", &[*code], id, out)?,
        TerraExpression::Index(a, key) => form(tree, "[]", &[*a, *key], id, out)?,
        TerraExpression::Select(a, name) => form(tree, ".", &[*a, *name], id, out)?,
        TerraExpression::Call(f, arguments) => applied(
            tree,
            "(call ",
            &[*f],
            arguments.as_slice(),
            id,
            out,
        )?,
        TerraExpression::Method(a, name, arguments) => applied(
            tree,
            "(: ",
            &[*a, *name],
            arguments.as_slice(),
            id,
            out,
        )?,
        TerraExpression::Construct(a, initialisers) => applied(
            tree,
            "(make ",
            &[*a],
            initialisers.as_slice(),
            id,
            out,
        )?,
    }
    Ok(())
}

#[cycle(shown)]
fn terra_statement(
    tree: &Tree,
    s: &TerraStatement,
    id: NodeId,
    out: &mut String,
) -> Result<(), NoMemory> {
    match s {
        TerraStatement::Assign(a, b) => lists(tree, "(= (", a.as_slice(), b.as_slice(), id, out)?,
        TerraStatement::Call(call) => form(tree, "perform", &[*call], id, out)?,
        TerraStatement::Splice(code) => form(tree, "splice", &[*code], id, out)?,
        TerraStatement::Do(block) => form(tree, "do", &[*block], id, out)?,
        TerraStatement::While(condition, block) => form(
            tree,
            "while",
            &[*condition, *block],
            id,
            out,
        )?,
        TerraStatement::Repeat(block, condition) => form(
            tree,
            "repeat",
            &[*block, *condition],
            id,
            out,
        )?,
        TerraStatement::If(arms, otherwise) => choice(tree, arms.as_slice(), *otherwise, id, out)?,
        TerraStatement::For(name, from, limit, step, block) => {
            counted(tree, [*name, *from, *limit], *step, *block, id, out)?
        }
        TerraStatement::Var(a, b) => lists(tree, "(var (", a.as_slice(), b.as_slice(), id, out)?,
        TerraStatement::Escape(block) => form(tree, "escape", &[*block], id, out)?,
        TerraStatement::Return(values) => form(tree, "return", values.as_slice(), id, out)?,
        TerraStatement::Break => out.push_str("break")?,
    }
    Ok(())
}

/// A loop over numbers.
#[cycle(shown)]
fn counted(
    tree: &Tree,
    range: [NodeId; 3],
    step: Option<NodeId>,
    block: NodeId,
    id: NodeId,
    out: &mut String,
) -> Result<(), NoMemory> {
    list(tree, "(for ", &range, " ", id, out)?;
    if let Some(step) = step {
        list(tree, "", &[step], " ", id, out)?;
    }
    list(tree, "", &[block], ")", id, out)
}

/// The arms of an `if`, and the block behind its `else`.
#[cycle(shown)]
fn choice(
    tree: &Tree,
    arms: &[NodeId],
    otherwise: Option<NodeId>,
    id: NodeId,
    out: &mut String,
) -> Result<(), NoMemory> {
    list(tree, "(if ", arms, "", id, out)?;
    if let Some(block) = otherwise {
        out.push_str(" ")?;
        form(tree, "else", &[block], id, out)?;
    }
    out.push_str(")")?;
    Ok(())
}

#[cycle(shown)]
fn piece(tree: &Tree, p: &Piece, id: NodeId, out: &mut String) -> Result<(), NoMemory> {
    match p {
        Piece::Block(statements) => list(tree, "[", statements.as_slice(), "]", id, out)?,
        Piece::Arm(condition, block) => list(tree, "(", &[*condition, *block], ")", id, out)?,
        Piece::Body(names, variadic, block) => {
            body(tree, names.as_slice(), *variadic, *block, id, out)?
        }
        Piece::Path(names, method) => {
            nodes(tree, names.as_slice(), ".", id, out)?;
            if let Some(name) = method {
                list(tree, ":", &[*name], "", id, out)?;
            }
        }
        Piece::NamedField(name, value) => pair(tree, "(", *name, " = ", *value, id, out)?,
        Piece::KeyedField(key, value) => pair(tree, "([", *key, "] = ", *value, id, out)?,
        Piece::Entry(name, written) => pair(tree, "(", *name, " : ", *written, id, out)?,
        Piece::Parameter(_, name, written) => pair(tree, "(", *name, " : ", *written, id, out)?,
        Piece::SpliceParameter(_, code) => form(tree, "splice", &[*code], id, out)?,
        Piece::Variable(_, name, written) => match written {
            Some(written) => pair(tree, "(", *name, " : ", *written, id, out)?,
            None => list(tree, "", &[*name], "", id, out)?,
        },
        Piece::Quoted(block, value) => {
            list(tree, "", &[*block], "", id, out)?;
            if let Some(value) = value {
                list(tree, " in ", &[*value], "", id, out)?;
            }
        }
        Piece::TerraBody(_, names, written, block) => {
            terra_body(tree, names.as_slice(), *written, *block, id, out)?
        }
    }
    Ok(())
}

/// Two nodes with this before and between them, in brackets.
#[cycle(shown)]
fn pair(
    tree: &Tree,
    open: &str,
    a: NodeId,
    between: &str,
    b: NodeId,
    id: NodeId,
    out: &mut String,
) -> Result<(), NoMemory> {
    list(tree, open, &[a], between, id, out)?;
    list(tree, "", &[b], ")", id, out)
}

/// The parameters of a Lua function and its block.
#[cycle(shown)]
fn body(
    tree: &Tree,
    names: &[NodeId],
    variadic: bool,
    block: NodeId,
    id: NodeId,
    out: &mut String,
) -> Result<(), NoMemory> {
    list(tree, "((", names, "", id, out)?;
    if variadic {
        out.push_str(if names.is_empty() { "..." } else { " ..." })?;
    }
    list(tree, ") ", &[block], ")", id, out)
}

/// The parameters of a Terra function, its result type and its block.
#[cycle(shown)]
fn terra_body(
    tree: &Tree,
    names: &[NodeId],
    written: Option<NodeId>,
    block: NodeId,
    id: NodeId,
    out: &mut String,
) -> Result<(), NoMemory> {
    list(tree, "((", names, ")", id, out)?;
    if let Some(written) = written {
        list(tree, " : ", &[written], "", id, out)?;
    }
    list(tree, " ", &[block], ")", id, out)
}
