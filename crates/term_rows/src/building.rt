// The rows that add expressions.

ghost use Rattle.std.specs.Prelude.{length};
ghost use Rattle.terra_term.specs.Held.{NamesTyped};

use row_words::{number_at, operator_of, short_count_at, word_at};
use terra_term::{
    Expression, FieldList, Initialiser, Primitive, Quote, Size, Store, Term, TermList,
    UnaryOperator,
};
use tl_base::{FnId, GlobalId, MacroId, NoMemory, Place, QuoteId, SymId, TermId, TextId, TypeId};

pub const HERE: Place = Place { line: 1, word: 1 };

/// A store, the nodes that are no parts yet, and the typed nodes that are none.
#[derive(Drop)]
pub struct Work {
    pub store: Store,
    pub stack: Vec<TermId>,
    pub typed: Vec<TermId>,
}

impl Work {
    /// The last node; one that isn't there where there is none.
    pub fn pop(&mut self) -> TermId {
        self.stack.pop().unwrap_or(TermId(u64::MAX))
    }

    /// The last nodes, in their order.
    pub fn take(&mut self, count: usize) -> Result<TermList, NoMemory> {
        let from = self.stack.len().saturating_sub(count);
        let items = self.stack.split_off(from)?;
        TermList::from_vec(items)
    }

    /// A new node's size, as a row shows it.
    pub fn put(&mut self, term: Term) -> Result<Option<String>, NoMemory>
        requires { NamesTyped (length self.old.store.typed) term }
    {
        let id = self.store.new_term(term)?;
        self.stack.push(id)?;
        let size = self.store.size_of_term(id);
        size_text(&self.store, size)
    }

    fn put_expression(&mut self, expression: Expression) -> Result<Option<String>, NoMemory>
        requires { NamesTyped (length self.old.store.typed) (Term.Expression HERE expression) }
    {
        self.put(Term::Expression(HERE, expression))
    }
}

/// A size as a row shows it.
pub fn size_text(store: &Store, size: Option<Size>) -> Result<Option<String>, NoMemory> {
    let alloc = store.allocator();
    match size {
        Some(size) => {
            let nodes = size.nodes;
            let levels = size.levels;
            Ok(Some(format!(in alloc; "{nodes} {levels}")?))
        }
        None => Ok(Some(String::from_str(alloc, "none")?)),
    }
}

/// A node without parts.
pub fn leaf(work: &mut Work, word: &str, words: &[&str]) -> Result<Option<String>, NoMemory> {
    let n = number_at(words, 1);
    match word {
        "number" => work.put_expression(Expression::Number(n, TypeId(number_at(words, 2)))),
        "true" => work.put_expression(Expression::Truth(true)),
        "false" => work.put_expression(Expression::Truth(false)),
        "nil" => work.put_expression(Expression::Nil),
        "variable" => work.put_expression(Expression::Variable(SymId(n))),
        "function" => work.put_expression(Expression::Function(FnId(n))),
        "putbyte" => work.put_expression(Expression::Primitive(Primitive::PutByte)),
        "write" => work.put_expression(Expression::Primitive(Primitive::Write)),
        "alloc" => work.put_expression(Expression::Primitive(Primitive::Alloc)),
        "static" => work.put_expression(Expression::Static(n)),
        "global" => work.put_expression(Expression::Global(GlobalId(n))),
        "type" => work.put_expression(Expression::Type(TypeId(n))),
        "macro" => work.put_expression(Expression::Macro(MacroId(n))),
        "sizeof" => work.put_expression(Expression::SizeOf),
        _ => Ok(None),
    }
}

/// An expression with parts.
pub fn node(work: &mut Work, word: &str, words: &[&str]) -> Result<Option<String>, NoMemory> {
    match word {
        "neg" => unary(work, UnaryOperator::Negate),
        "not" => unary(work, UnaryOperator::Not),
        "@" => unary(work, UnaryOperator::Dereference),
        "&" => unary(work, UnaryOperator::Address),
        "binary" => binary(work, words),
        "call" => call(work, words),
        "method" => method(work, words),
        "select" => select(work, words),
        "index" => index(work),
        "new" => constructor(work, words),
        "named" => named_constructor(work, words),
        "let" => quote_with_value(work, words),
        "splice" => splice(work, words),
        _ => Ok(None),
    }
}

fn unary(work: &mut Work, operator: UnaryOperator) -> Result<Option<String>, NoMemory> {
    let a = work.pop();
    work.put_expression(Expression::Unary(operator, a))
}

fn binary(work: &mut Work, words: &[&str]) -> Result<Option<String>, NoMemory> {
    let b = work.pop();
    let a = work.pop();
    let operator = operator_of(word_at(words, 1));
    work.put_expression(Expression::Binary(operator, a, b))
}

fn call(work: &mut Work, words: &[&str]) -> Result<Option<String>, NoMemory> {
    let list = work.take(short_count_at(words, 1))?;
    let callee = work.pop();
    work.put_expression(Expression::Call(callee, list))
}

fn method(work: &mut Work, words: &[&str]) -> Result<Option<String>, NoMemory> {
    let list = work.take(short_count_at(words, 2))?;
    let object = work.pop();
    let name = TextId(number_at(words, 1));
    work.put_expression(Expression::Method(object, name, list))
}

fn select(work: &mut Work, words: &[&str]) -> Result<Option<String>, NoMemory> {
    let object = work.pop();
    let name = TextId(number_at(words, 1));
    work.put_expression(Expression::Select(object, name))
}

fn index(work: &mut Work) -> Result<Option<String>, NoMemory> {
    let i = work.pop();
    let a = work.pop();
    work.put_expression(Expression::Index(a, i))
}

fn constructor(work: &mut Work, words: &[&str]) -> Result<Option<String>, NoMemory> {
    let list = work.take(short_count_at(words, 2))?;
    let of = TypeId(number_at(words, 1));
    work.put_expression(Expression::New(of, Initialiser::Positional(list)))
}

fn named_constructor(work: &mut Work, words: &[&str]) -> Result<Option<String>, NoMemory> {
    let of = TypeId(number_at(words, 1));
    let mut fields = Vec::new(work.store.allocator());
    for place in 2..words.len() {
        fields.push(TextId(number_at(words, place)))?;
    }
    let list = work.take(fields.len())?;
    let entries = Initialiser::Named(FieldList::from_vec(fields)?, list);
    work.put_expression(Expression::New(of, entries))
}

fn quote_with_value(work: &mut Work, words: &[&str]) -> Result<Option<String>, NoMemory> {
    let value = work.pop();
    let block = work.take(short_count_at(words, 1))?;
    work.put_expression(Expression::Let(block, value))
}

/// A quote that is spliced: the term of one that isn't typed, or a typed one.
fn splice(work: &mut Work, words: &[&str]) -> Result<Option<String>, NoMemory> {
    let (source, made) = match work.store.quote(QuoteId(number_at(words, 1))) {
        Some(Quote::Typed(source, made)) => (*source, *made),
        _ => return Ok(None),
    };
    work.put_expression(Expression::Typed(source, made))
}
