// What is within a node.
ghost use Rattle.std.specs.Prelude.{◌≡◌, ◌∷◌, ◌++◌, [], OnOk, length};
ghost use Rattle.tl_tree.specs.Nodes.{item_at, item_of};
ghost use Rattle.tl_tree.specs.Arena.{items_of};
ghost use Rattle.tl_tree.specs.Code.{statements_at, names_method, if_any};
ghost use Rattle.tl_tree.specs.Scopes as scopes;
ghost use Rattle.tl_rename.specs.Lists.{within_of, and_more};

use std::alloc::Global;
use tl_base::{NoMemory, NodeId};
use tl_tree::{
    Expression, Node, NodeList, Piece, Statement, TerraExpression, TerraStatement, Tree,
};

/// Is the node a name?
pub fn is_name(tree: &Tree, n: NodeId) -> bool
    ensures { result ≡ scopes.is_name (item_at (items_of tree.now) n) }
{
    matches!(tree.node(n), Node::Name(..))
}

/// The statements of a block.
fn statements<'a>(tree: &'a Tree, block: NodeId) -> &'a [NodeId]
    ensures { result.now ≡ statements_at (items_of tree.now) block }
{
    match tree.node(block) {
        Node::Piece(Piece::Block(ns)) => ns.as_slice(),
        _ => &[],
    }
}

/// Does the path name a method, whose function declares `self`?
fn names_method(tree: &Tree, path: NodeId) -> bool
    ensures { result ≡ names_method (items_of tree.now) path }
{
    match tree.node(path) {
        Node::Piece(Piece::Path(_, method)) => method.is_some(),
        _ => false,
    }
}

/// The first name of a path.
fn path_use(tree: &Tree, path: NodeId) -> Option<NodeId>
    ensures { if_any result ≡ scopes.path_use (items_of tree.now) path }
{
    match tree.node(path) {
        Node::Piece(Piece::Path(names, _)) => match names.as_slice() {
            [first, ..] => Some(*first),
            [] => None,
        },
        _ => None,
    }
}

/// Adds a node if there is one.
fn push_any(list: &mut NodeList, n: Option<NodeId>) -> Result<(), NoMemory>
    ensures { OnOk result (list.new ≡ list.old ++ if_any n) }
{
    match n {
        Some(n) => list.push(n),
        None => Ok(()),
    }
}

/// Adds the node if it is a name.
fn push_if_name(list: &mut NodeList, tree: &Tree, n: NodeId) -> Result<(), NoMemory>
    ensures { OnOk result (list.new ≡ list.old ++ scopes.if_name (items_of tree.now) n) }
{
    if is_name(tree, n) {
        list.push(n)
    } else {
        Ok(())
    }
}

/// Adds the node unless it is a name.
fn push_unless_name(list: &mut NodeList, tree: &Tree, n: NodeId) -> Result<(), NoMemory>
    ensures { OnOk result (list.new ≡ list.old ++ scopes.unless_name (items_of tree.now) n) }
{
    if is_name(tree, n) {
        Ok(())
    } else {
        list.push(n)
    }
}

/// Adds the name of a parameter or of a variable.
fn push_bound(list: &mut NodeList, tree: &Tree, n: NodeId) -> Result<(), NoMemory>
    ensures { OnOk result (list.new ≡ list.old ++ scopes.bound_by (items_of tree.now) (item_at (items_of tree.now) n)) }
{
    match tree.node(n) {
        Node::Piece(Piece::Parameter(_, name, _)) => list.push(*name),
        Node::Piece(Piece::Variable(_, name, _)) => push_if_name(list, tree, *name),
        _ => Ok(()),
    }
}

/// Adds the names of parameters or of variables.
fn push_all_bound(list: &mut NodeList, tree: &Tree, ns: &[NodeId]) -> Result<(), NoMemory>
    ensures { OnOk result (list.new ≡ list.old ++ scopes.all_bound_by (items_of tree.now) ns.now) }
{
    for n in ns {
        push_bound(list, tree, *n)?;
    }
    Ok(())
}

/// Adds the names that a statement declares in the block in which it stands.
pub fn push_declared(list: &mut NodeList, tree: &Tree, n: NodeId) -> Result<(), NoMemory>
    ensures { OnOk result (list.new ≡ list.old ++ scopes.declared_at (items_of tree.now) n) }
{
    match tree.node(n) {
        Node::Statement(_, s) => match s {
            Statement::Local(names, _) => list.push_all(names.as_slice()),
            Statement::LocalFunction(name, _)
            | Statement::LocalTerra(_, name, _)
            | Statement::LocalDeclareTerra(_, name, _)
            | Statement::LocalStruct(_, name, _) => list.push(*name),
            _ => Ok(()),
        },
        Node::TerraStatement(_, TerraStatement::Var(variables, _)) => {
            push_all_bound(list, tree, variables.as_slice())
        }
        _ => Ok(()),
    }
}

/// Is the statement in the scope of what it declares itself?
pub fn sees_itself(tree: &Tree, n: NodeId) -> bool
    ensures { result ≡ scopes.sees_itself (item_at (items_of tree.now) n) }
{
    matches!(
        tree.node(n),
        Node::Statement(
            _,
            Statement::LocalFunction(..)
                | Statement::LocalTerra(..)
                | Statement::LocalDeclareTerra(..)
                | Statement::LocalStruct(..)
        )
    )
}

/// The nodes within a node: those that stand where it stands, the names that it declares, the statements of the block that is the scope of
/// these, and those behind the block.
#[derive(Drop)]
pub struct Inside {
    pub around: NodeList,
    pub names: NodeList,
    pub statements: NodeList,
    pub behind: NodeList,
}

impl Inside {
    /// Nothing.
    pub fn new(alloc: Global) -> Inside
        ensures { within_of result ≡ scopes.plain [] }
    {
        Inside {
            around: NodeList::new(alloc),
            names: NodeList::new(alloc),
            statements: NodeList::new(alloc),
            behind: NodeList::new(alloc),
        }
    }

    /// Reads what is within a node.
    pub fn read(&mut self, tree: &Tree, n: NodeId) -> Result<(), NoMemory>
        ensures { OnOk result (within_of self.new ≡ scopes.within (items_of tree.now) n) }
    {
        self.around.clear();
        self.names.clear();
        self.statements.clear();
        self.behind.clear();
        match tree.node(n) {
            Node::Name(..) | Node::Numeral(..) | Node::Literal(..) => Ok(()),
            Node::Expression(_, e) => self.expression(e),
            Node::Statement(_, s) => self.statement(tree, n, s),
            Node::TerraExpression(_, e) => self.terra_expression(tree, e),
            Node::TerraStatement(_, s) => self.terra_statement(tree, s),
            Node::Piece(p) => self.piece(tree, n, p),
        }
    }

    /// Adds what is within an expression of Lua code.
    fn expression(&mut self, e: &Expression) -> Result<(), NoMemory>
        ensures { OnOk result (within_of self.new ≡ and_more self.old (scopes.within_expression e.now)) }
    {
        let around = &mut self.around;
        match e {
            Expression::Function(a)
            | Expression::Unary(_, a)
            | Expression::Paren(a)
            | Expression::Select(a, _)
            | Expression::Terra(a)
            | Expression::Quote(a)
            | Expression::Backtick(a) => around.push(*a),
            Expression::Table(ns) | Expression::Struct(ns) => around.push_all(ns.as_slice()),
            Expression::Binary(_, a, b) | Expression::Index(a, b) => around.push_all(&[*a, *b]),
            Expression::Call(a, ns) | Expression::Method(a, _, ns) => {
                around.push(*a)?;
                around.push_all(ns.as_slice())
            }
            Expression::Nil | Expression::False | Expression::True | Expression::Varargs => Ok(()),
        }
    }

    /// Adds what is within a statement of Lua code.
    fn statement(&mut self, tree: &Tree, n: NodeId, s: &Statement) -> Result<(), NoMemory>
        ensures { OnOk result (within_of self.new ≡ and_more self.old (scopes.within_statement (items_of tree.now) n s.now)) }
    {
        match s {
            Statement::Assign(targets, es) => {
                self.around.push_all(targets.as_slice())?;
                self.around.push_all(es.as_slice())
            }
            Statement::Call(e)
            | Statement::Do(e)
            | Statement::LocalFunction(_, e)
            | Statement::LocalTerra(_, _, e)
            | Statement::LocalDeclareTerra(_, _, e)
            | Statement::Emit(e) => self.around.push(*e),
            Statement::While(condition, block) => self.around.push_all(&[*condition, *block]),
            Statement::Repeat(block, condition) => {
                self.statements.push_all(statements(tree, *block))?;
                self.behind.push(*condition)
            }
            Statement::If(arms, otherwise) => {
                self.around.push_all(arms.as_slice())?;
                push_any(&mut self.around, *otherwise)
            }
            Statement::NumericFor(name, first, limit, step, block) => {
                self.around.push_all(&[*first, *limit])?;
                push_any(&mut self.around, *step)?;
                self.names.push(*name)?;
                self.statements.push_all(statements(tree, *block))
            }
            Statement::GenericFor(names, es, block) => {
                self.around.push_all(es.as_slice())?;
                self.names.push_all(names.as_slice())?;
                self.statements.push_all(statements(tree, *block))
            }
            Statement::Function(path, body) => {
                push_any(&mut self.around, path_use(tree, *path))?;
                self.function(tree, n, names_method(tree, *path), *body)
            }
            Statement::Terra(path, body) => {
                push_any(&mut self.around, path_use(tree, *path))?;
                self.terra_function(tree, n, names_method(tree, *path), *body)
            }
            Statement::DeclareTerra(path, e) => {
                push_any(&mut self.around, path_use(tree, *path))?;
                self.around.push(*e)
            }
            Statement::Struct(path, entries) => {
                push_any(&mut self.around, path_use(tree, *path))?;
                self.around.push_all(entries.as_slice())
            }
            Statement::Local(_, ns) | Statement::LocalStruct(_, _, ns) | Statement::Return(ns) => {
                self.around.push_all(ns.as_slice())
            }
            Statement::Break => Ok(()),
        }
    }

    /// Adds what is within an expression of Terra code.
    fn terra_expression(&mut self, tree: &Tree, e: &TerraExpression) -> Result<(), NoMemory>
        ensures { OnOk result (within_of self.new ≡ and_more self.old (scopes.within_terra_expression (items_of tree.now) e.now)) }
    {
        let around = &mut self.around;
        match e {
            TerraExpression::Unary(_, a) | TerraExpression::Paren(a) | TerraExpression::Escape(a) =>
                { around.push(*a) }
            TerraExpression::Binary(_, a, b) | TerraExpression::Index(a, b) => {
                around.push_all(&[*a, *b])
            }
            TerraExpression::Select(a, name) => {
                around.push(*a)?;
                push_unless_name(around, tree, *name)
            }
            TerraExpression::Call(a, ns) | TerraExpression::Construct(a, ns) => {
                around.push(*a)?;
                around.push_all(ns.as_slice())
            }
            TerraExpression::Method(a, name, ns) => {
                around.push(*a)?;
                push_unless_name(around, tree, *name)?;
                around.push_all(ns.as_slice())
            }
            TerraExpression::Nil | TerraExpression::False | TerraExpression::True => Ok(()),
        }
    }

    /// Adds what is within a statement of Terra code.
    fn terra_statement(&mut self, tree: &Tree, s: &TerraStatement) -> Result<(), NoMemory>
        ensures { OnOk result (within_of self.new ≡ and_more self.old (scopes.within_terra_statement (items_of tree.now) s.now)) }
    {
        match s {
            TerraStatement::Assign(ns, es) | TerraStatement::Var(ns, es) => {
                self.around.push_all(ns.as_slice())?;
                self.around.push_all(es.as_slice())
            }
            TerraStatement::Call(e)
            | TerraStatement::Splice(e)
            | TerraStatement::Do(e)
            | TerraStatement::Escape(e) => self.around.push(*e),
            TerraStatement::While(condition, block) => self.around.push_all(&[*condition, *block]),
            TerraStatement::Repeat(block, condition) => {
                self.statements.push_all(statements(tree, *block))?;
                self.behind.push(*condition)
            }
            TerraStatement::If(arms, otherwise) => {
                self.around.push_all(arms.as_slice())?;
                push_any(&mut self.around, *otherwise)
            }
            TerraStatement::For(name, first, limit, step, block) => {
                push_unless_name(&mut self.around, tree, *name)?;
                self.around.push_all(&[*first, *limit])?;
                push_any(&mut self.around, *step)?;
                push_if_name(&mut self.names, tree, *name)?;
                self.statements.push_all(statements(tree, *block))
            }
            TerraStatement::Return(es) => self.around.push_all(es.as_slice()),
            TerraStatement::Break => Ok(()),
        }
    }

    /// Adds what is within a piece.
    fn piece(&mut self, tree: &Tree, n: NodeId, p: &Piece) -> Result<(), NoMemory>
        ensures { OnOk result (within_of self.new ≡ and_more self.old (scopes.within_piece (items_of tree.now) n p.now)) }
    {
        match p {
            Piece::Block(ns) => self.statements.push_all(ns.as_slice()),
            Piece::Arm(a, b) | Piece::KeyedField(a, b) => self.around.push_all(&[*a, *b]),
            Piece::Body(names, _, block) => {
                self.names.push_all(names.as_slice())?;
                self.statements.push_all(statements(tree, *block))
            }
            Piece::Path(..) => Ok(()),
            Piece::NamedField(_, e)
            | Piece::Entry(_, e)
            | Piece::Parameter(_, _, e)
            | Piece::SpliceParameter(_, e) => self.around.push(*e),
            Piece::Quoted(block, e) => {
                self.statements.push_all(statements(tree, *block))?;
                push_any(&mut self.behind, *e)
            }
            Piece::TerraBody(_, parameters, result, block) => {
                self.terra_parts(tree, parameters.as_slice(), *result, *block)
            }
            Piece::Variable(_, name, e) => {
                push_unless_name(&mut self.around, tree, *name)?;
                push_any(&mut self.around, *e)
            }
        }
    }

    /// Adds the parameters of a Terra function, its result type and its block.
    fn terra_parts(
        &mut self,
        tree: &Tree,
        parameters: &[NodeId],
        result_type: Option<NodeId>,
        block: NodeId,
    ) -> Result<(), NoMemory>
        ensures { OnOk result (within_of self.new ≡ and_more self.old
            (scopes.owner (parameters.now ++ if_any result_type) (scopes.all_bound_by (items_of tree.now) parameters.now)
            (statements_at (items_of tree.now) block) [])) }
    {
        self.around.push_all(parameters)?;
        push_any(&mut self.around, result_type)?;
        push_all_bound(&mut self.names, tree, parameters)?;
        self.statements.push_all(statements(tree, block))
    }

    /// Adds the function that is defined by a statement.
    fn function(
        &mut self,
        tree: &Tree,
        n: NodeId,
        method: bool,
        body: NodeId,
    ) -> Result<(), NoMemory>
        ensures { OnOk result (within_of self.new
            ≡ and_more self.old (scopes.within_function (items_of tree.now) n [] method (item_at (items_of tree.now) body))) }
    {
        let Node::Piece(Piece::Body(names, _, block)) = tree.node(body) else {
            return Ok(());
        };
        if method {
            self.names.push(n)?;
        }
        self.names.push_all(names.as_slice())?;
        self.statements.push_all(statements(tree, *block))
    }

    /// Adds the Terra function that is defined by a statement.
    fn terra_function(
        &mut self,
        tree: &Tree,
        n: NodeId,
        method: bool,
        body: NodeId,
    ) -> Result<(), NoMemory>
        ensures { OnOk result (within_of self.new
            ≡ and_more self.old (scopes.within_terra_function (items_of tree.now) n [] method (item_at (items_of tree.now) body))) }
    {
        let Node::Piece(Piece::TerraBody(_, parameters, result, block)) = tree.node(body) else {
            return Ok(());
        };
        if method {
            self.names.push(n)?;
        }
        self.terra_parts(tree, parameters.as_slice(), *result, *block)
    }
}
