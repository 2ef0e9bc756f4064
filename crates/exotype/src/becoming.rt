// Lua values as Terra terms.

ghost use Rattle.std.specs.Prelude.{◌≡◌, ◌≤◌, ◌<◌, IfOk, OnOk, slice_get, length};
ghost use Rattle.std.specs.Option.{option_copied};
ghost use Rattle.tl_base.specs.declared.limits.TheConstants.Limits.{MAX_MEMORY};
ghost use Rattle.terra_term.specs.Held.{NamesTyped};
ghost use Rattle.exotype.specs.Becoming.{Becoming, number, library_function, type_found, quote_found, constant_found, constant_leaf};
ghost use Rattle.exotype.specs.Becoming.{fits_int32};
ghost use Rattle.exotype.specs.Becoming.{became_in, store_after, became_of, after, term_of, with_term_of, spliced_nodes};
ghost use Rattle.exotype.specs.Terms.{term_size, typed_size};
ghost use Rattle.exotype.specs.Types.{is_type};

use crate::became::Became;
use crate::fault::Fault;
use crate::types::is_type;
use crate::world::World;
use lua_value::{Kind, LibFn, Number, Value};
use terra_term::{Expression, Quote, Size, Store, Term, TerraConstant};
use tl_base::{ConstantId, NoMemory, Place, QuoteId, TermId, TypeId};

/// The type of numbers that become terms, which is there from the begin.
const INT32: TypeId = TypeId(2);

/// The type bool, which is there from the begin.
const BOOL: TypeId = TypeId(8);

impl World {
    /// Makes a value a term, where one term is wanted. A new term has the place `at`, of what put the value there.
    ///
    /// Symbols, truths, numbers of 32 bits, texts, Terra's functions, types, macros, globals and constants, and `sizeof` are terms;
    /// an expression that was quoted is its own term. The answer says why any other value is refused.
    pub fn term_of(&mut self, value: Value, at: Place) -> Result<Became, NoMemory>
        ensures term { IfOk result (λ became. became ≡ term_of self.old value) }
        ensures ok { OnOk result (self.new ≡ with_term_of self.old value at) }
    {
        let memory = self.memory();
        match value {
            Value::Nil => refused(Kind::Nil),
            Value::Boolean(truth) => leaf(&mut self.store, at, Expression::Truth(truth)),
            Value::Number(value) => number_term(&mut self.store, at, value),
            Value::Text(text) => { text_term(&mut self.store, memory, at, self.heap.text(text)) }
            Value::Table(_) => Ok(Became::Refused(Fault::ListForOneTerm)),
            Value::Closure(_) => refused(Kind::Function),
            Value::Library(function) => library_term(&mut self.store, at, function),
            Value::TerraFunction(f) => leaf(&mut self.store, at, Expression::Function(f)),
            Value::TerraType(of) => type_term(&mut self.store, at, of),
            Value::Quote(quote) => quote_term(&mut self.store, at, quote),
            Value::Symbol(symbol) => leaf(&mut self.store, at, Expression::Variable(symbol)),
            Value::Macro(id) => leaf(&mut self.store, at, Expression::Macro(id)),
            Value::Global(global) => leaf(&mut self.store, at, Expression::Global(global)),
            Value::Constant(constant) => constant_term(&mut self.store, at, constant),
            Value::Primitive(primitive) => {
                leaf(&mut self.store, at, Expression::Primitive(primitive))
            }
        }
    }

    /// Makes the text of these bytes a term, as a literal of Terra code is one.
    pub fn term_of_text(&mut self, bytes: &[u8], at: Place) -> Result<Became, NoMemory>
        ensures term { IfOk result (λ became. became ≡ became_of self.old (Becoming.Text bytes.now)) }
        ensures ok { OnOk result (self.new ≡ after self.old at (Becoming.Text bytes.now)) }
    {
        let memory = self.memory();
        text_term(&mut self.store, memory, at, bytes)
    }

    /// How many nodes are spliced where a value becomes a term: those of a quote's term, and none for any other value.
    pub fn spliced_nodes(&self, value: Value) -> u64
        ensures { result ≡ spliced_nodes self.now value }
    {
        match value {
            Value::Quote(quote) => match self.store.quote(quote) {
                Some(Quote::Expression(term)) => u64::from(self.term_size(*term).nodes),
                Some(Quote::Typed(_, made)) => u64::from(self.typed_size(*made).nodes),
                _ => 0,
            },
            _ => 0,
        }
    }

    /// How many nodes and levels a term has. What isn't there counts as nil.
    pub fn term_size(&self, term: TermId) -> Size
        ensures { result ≡ term_size self.now term }
    {
        match self.store.size_of_term(term) {
            Some(size) => size,
            None => Size::leaf(),
        }
    }

    /// How many nodes and levels a typed term has. What isn't there counts as nil.
    fn typed_size(&self, made: TermId) -> Size
        ensures { result ≡ typed_size self.now made }
    {
        match self.store.size_of_typed(made) {
            Some(size) => size,
            None => Size::leaf(),
        }
    }
}

/// A value of this kind is no term.
fn refused(kind: Kind) -> Result<Became, NoMemory>
    ensures { IfOk result (λ became. became ≡ Became.Refused (Fault.InTerraCode kind)) }
{
    Ok(Became::Refused(Fault::InTerraCode(kind)))
}

/// A new term without parts, which is no typed quote.
fn leaf(store: &mut Store, at: Place, expression: Expression) -> Result<Became, NoMemory>
    requires { NamesTyped (length store.old.typed) (Term.Expression at expression) }
    ensures term { IfOk result (λ became. became ≡ became_in store.old 0 (Becoming.Leaf expression)) }
    ensures ok { OnOk result (store.new ≡ store_after store.old 0 at (Becoming.Leaf expression)) }
{
    let term = store.new_term(Term::Expression(at, expression))?;
    Ok(Became::Term(term))
}

/// The term of a type.
fn type_term(store: &mut Store, at: Place, of: TypeId) -> Result<Became, NoMemory>
    ensures term { IfOk result (λ became. became ≡ became_in store.old 0 (type_found of (is_type store.old.types of))) }
    ensures ok { OnOk result (store.new ≡ store_after store.old 0 at (type_found of (is_type store.old.types of))) }
{
    if is_type(store.types(), of) {
        leaf(store, at, Expression::Type(of))
    } else {
        refused(Kind::TerraType)
    }
}

/// The term of a number.
fn number_term(store: &mut Store, at: Place, value: Number) -> Result<Became, NoMemory>
    ensures term { IfOk result (λ became. became ≡ became_in store.old 0 (number value)) }
    ensures ok { OnOk result (store.new ≡ store_after store.old 0 at (number value)) }
{
    let value = value.get();
    if fits_int32(value) {
        leaf(store, at, Expression::Number(value.cast_unsigned(), INT32))
    } else {
        Ok(Became::Refused(Fault::NumberOutOfInt32))
    }
}

/// Whether a number is one of 32 bits with a sign.
fn fits_int32(value: i64) -> bool
    ensures { result ≡ fits_int32 value }
{
    -2_147_483_648 <= value && value <= 2_147_483_647
}

/// The term of a text: the address of its bytes, which are a static from then on.
fn text_term(store: &mut Store, memory: u64, at: Place, bytes: &[u8]) -> Result<Became, NoMemory>
    requires { memory ≤ MAX_MEMORY }
    ensures term { IfOk result (λ became. became ≡ became_in store.old memory (Becoming.Text bytes.now)) }
    ensures ok { OnOk result (store.new ≡ store_after store.old memory at (Becoming.Text bytes.now)) }
{
    match store.text_static(bytes, memory)? {
        Some(address) => leaf(store, at, Expression::Static(address)),
        None => Ok(Became::Refused(Fault::StaticsFull)),
    }
}

/// The term of a function of the library.
fn library_term(store: &mut Store, at: Place, function: LibFn) -> Result<Became, NoMemory>
    ensures term { IfOk result (λ became. became ≡ became_in store.old 0 (library_function function)) }
    ensures ok { OnOk result (store.new ≡ store_after store.old 0 at (library_function function)) }
{
    match function {
        LibFn::SizeOf => leaf(store, at, Expression::SizeOf),
        _ => refused(Kind::Function),
    }
}

/// The term of a quote: its own, and for a typed one a new leaf.
fn quote_term(store: &mut Store, at: Place, quote: QuoteId) -> Result<Became, NoMemory>
    ensures term { IfOk result (λ became. became ≡ became_in store.old 0 (quote_found (slice_get store.old.quotes quote.0))) }
    ensures ok { OnOk result (store.new ≡ store_after store.old 0 at (quote_found (slice_get store.old.quotes quote.0))) }
{
    match store.quote(quote) {
        Some(Quote::Expression(term)) => Ok(Became::Term(*term)),
        Some(Quote::Statements(_)) => Ok(Became::Refused(Fault::StatementsForExpression)),
        Some(Quote::Typed(source, made)) => {
            let typed = Expression::Typed(*source, *made);
            leaf(store, at, typed)
        }
        None => refused(Kind::Quote),
    }
}

/// The term of a constant.
fn constant_term(store: &mut Store, at: Place, constant: ConstantId) -> Result<Became, NoMemory>
    ensures term { IfOk result (λ became. became ≡ became_in store.old 0 (constant_found (slice_get store.old.constants constant.0))) }
    ensures ok { OnOk result (store.new ≡ store_after store.old 0 at (constant_found (slice_get store.old.constants constant.0))) }
{
    match store.constant(constant) {
        Some(constant) => leaf(store, at, constant_leaf(constant)),
        None => refused(Kind::Constant),
    }
}

/// A constant as an expression: a truth where it is of type bool, and else a number.
fn constant_leaf(constant: TerraConstant) -> Expression
    ensures { result ≡ constant_leaf constant }
{
    if constant.of == BOOL {
        Expression::Truth(constant.value != 0)
    } else {
        Expression::Number(constant.value, constant.of)
    }
}
