// The pieces of the text of each node.

ghost use Rattle.std.specs.Prelude.{◌≡◌, ◌++◌, ◌∷◌, [], IfOk, OnOk};
ghost use Rattle.terra_term.specs.declared.piece.PartKind.TheVariants as kinds;
ghost use Rattle.terra_term.specs.Pieces.{spaced_parts, spaced_terms, spaced_statements, listed_terms, listed_names, spaced_names};
ghost use Rattle.terra_term.specs.Pieces.{name_pieces, listed_parameters, spaced_parameters, parameter_pieces, named_value, named_values};
ghost use Rattle.terra_term.specs.Pieces.{bounds_pieces, word_form, part, new_pieces, assignment_pieces, for_pieces, expression_pieces};
ghost use Rattle.terra_term.specs.Pieces.{statement_pieces, definition_pieces, var_pieces, choice_pieces, comma_types, listed_types};
ghost use Rattle.terra_term.specs.Pieces.{function_type_pieces, type_pieces, space};
ghost use Rattle.terra_term.specs.TermText.{global_address};

use crate::lists::{Parameter, TermList, VarName};
use crate::piece::{PartKind, Piece, Word};
use crate::store::Store;
use crate::term::{Expression, Initialiser, Statement};
use std::alloc::Global;
use terra_types::TypeForm;
use tl_base::{FnId, GlobalId, NoMemory, TermId, TextId, TypeId};

const OPEN: Piece = Piece::Word(Word::Open);

const CLOSE: Piece = Piece::Word(Word::Close);

const SPACE: Piece = Piece::Word(Word::Space);

/// These pieces.
fn list(alloc: Global, items: &[Piece]) -> Result<Vec<Piece>, NoMemory>
    ensures { IfOk result (λ v. v.items ≡ items.now) }
{
    Ok(items.to_vec(alloc)?)
}

/// Puts parts behind pieces, each behind a space.
fn push_parts(
    pieces: &mut Vec<Piece>,
    kind: PartKind,
    below: u64,
    ids: &[TermId],
) -> Result<(), NoMemory>
    ensures { OnOk result (pieces.new.items ≡ pieces.old.items ++ spaced_parts kind below ids.now) }
{
    for id in ids {
        pieces.push(SPACE)?;
        pieces.push(kind.part(below, *id))?;
    }
    Ok(())
}

/// Pieces, then parts, each behind a space, and then more pieces.
fn with_parts(
    alloc: Global,
    head: &[Piece],
    kind: PartKind,
    below: u64,
    ids: &[TermId],
    tail: &[Piece],
) -> Result<Vec<Piece>, NoMemory>
    ensures { IfOk result (λ v. v.items ≡ head.now ++ (spaced_parts kind below ids.now ++ tail.now)) }
{
    let mut pieces = list(alloc, head)?;
    push_parts(&mut pieces, kind, below, ids)?;
    pieces.extend_from_slice(tail)?;
    Ok(pieces)
}

/// Puts expressions behind pieces, with a space between.
fn push_listed(pieces: &mut Vec<Piece>, below: u64, ids: &[TermId]) -> Result<(), NoMemory>
    ensures { OnOk result (pieces.new.items ≡ pieces.old.items ++ listed_terms below ids.now) }
{
    if let [first, rest @ ..] = ids {
        pieces.push(Piece::Expression(*first, below))?;
        push_parts(pieces, PartKind::Expression, below, rest)?;
    }
    Ok(())
}

/// Puts a name of a `var` behind pieces.
fn push_name(pieces: &mut Vec<Piece>, name: &VarName) -> Result<(), NoMemory>
    ensures { OnOk result (pieces.new.items ≡ pieces.old.items ++ name_pieces name.now) }
{
    pieces.push(Piece::Symbol(name.symbol))?;
    if let Some(of) = name.of {
        pieces.push(Piece::Word(Word::Colon))?;
        pieces.push(Piece::Type(of))?;
    }
    Ok(())
}

/// Puts names of a `var` behind pieces, each behind a space.
fn push_spaced_names(pieces: &mut Vec<Piece>, names: &[VarName]) -> Result<(), NoMemory>
    ensures { OnOk result (pieces.new.items ≡ pieces.old.items ++ spaced_names names.now) }
{
    for name in names {
        pieces.push(SPACE)?;
        push_name(pieces, name)?;
    }
    Ok(())
}

/// Puts names of a `var` behind pieces, with a space between.
fn push_names(pieces: &mut Vec<Piece>, names: &[VarName]) -> Result<(), NoMemory>
    ensures { OnOk result (pieces.new.items ≡ pieces.old.items ++ listed_names names.now) }
{
    if let [first, rest @ ..] = names {
        push_name(pieces, first)?;
        push_spaced_names(pieces, rest)?;
    }
    Ok(())
}

/// Puts a parameter behind pieces.
fn push_parameter(pieces: &mut Vec<Piece>, parameter: &Parameter) -> Result<(), NoMemory>
    ensures { OnOk result (pieces.new.items ≡ pieces.old.items ++ parameter_pieces parameter.now) }
{
    pieces.extend_from_slice(&[
        OPEN,
        Piece::Symbol(parameter.symbol),
        SPACE,
        Piece::Type(parameter.of),
        CLOSE,
    ])?;
    Ok(())
}

/// Puts parameters behind pieces, each behind a space.
fn push_spaced_parameters(pieces: &mut Vec<Piece>, parameters: &[Parameter]) -> Result<(), NoMemory>
    ensures { OnOk result (pieces.new.items ≡ pieces.old.items ++ spaced_parameters parameters.now) }
{
    for parameter in parameters {
        pieces.push(SPACE)?;
        push_parameter(pieces, parameter)?;
    }
    Ok(())
}

/// Puts parameters behind pieces, with a space between.
fn push_parameters(pieces: &mut Vec<Piece>, parameters: &[Parameter]) -> Result<(), NoMemory>
    ensures { OnOk result (pieces.new.items ≡ pieces.old.items ++ listed_parameters parameters.now) }
{
    if let [first, rest @ ..] = parameters {
        push_parameter(pieces, first)?;
        push_spaced_parameters(pieces, rest)?;
    }
    Ok(())
}

/// Puts a value with its name behind pieces.
fn push_named_value(
    pieces: &mut Vec<Piece>,
    below: u64,
    field: TextId,
    value: TermId,
) -> Result<(), NoMemory>
    ensures { OnOk result (pieces.new.items ≡ pieces.old.items ++ named_value below field value) }
{
    pieces.extend_from_slice(&[
        SPACE,
        OPEN,
        Piece::Name(field),
        SPACE,
        Piece::Expression(value, below),
        CLOSE,
    ])?;
    Ok(())
}

/// Puts values with their names behind pieces, each behind a space. Values without a name follow.
fn push_named_values(
    pieces: &mut Vec<Piece>,
    below: u64,
    fields: &[TextId],
    values: &[TermId],
) -> Result<(), NoMemory>
    ensures { OnOk result (pieces.new.items ≡ pieces.old.items ++ named_values below fields.now values.now) }
{
    for place in 0..fields.len() {
        if place >= values.len() {
            return Ok(());
        }
        push_named_value(pieces, below, fields[place], values[place])?;
    }
    if fields.len() < values.len() {
        push_parts(pieces, PartKind::Expression, below, &values[fields.len()..])?;
    }
    Ok(())
}

/// Puts the bounds of a `for` behind pieces.
fn push_bounds(pieces: &mut Vec<Piece>, below: u64, bounds: &[TermId]) -> Result<(), NoMemory>
    ensures { OnOk result (pieces.new.items ≡ pieces.old.items ++ bounds_pieces below bounds.now) }
{
    match bounds {
        [from, to, step, ..] => {
            pieces.extend_from_slice(&[
                SPACE,
                Piece::Expression(*from, below),
                SPACE,
                Piece::Expression(*to, below),
                SPACE,
                OPEN,
                Piece::Word(Word::By),
                SPACE,
                Piece::Expression(*step, below),
                CLOSE,
            ])?;
            Ok(())
        }
        _ => push_parts(pieces, PartKind::Expression, below, bounds),
    }
}

/// The pieces of a word in brackets, with a piece behind it.
fn with_piece(alloc: Global, word: Word, piece: Piece) -> Result<Vec<Piece>, NoMemory>
    ensures { IfOk result (λ v. v.items ≡ word_form word (space ∷ piece ∷ [])) }
{
    list(alloc, &[OPEN, Piece::Word(word), SPACE, piece, CLOSE])
}

/// The address of a global; 0 where there is none of that id.
fn address_of_global(store: &Store, global: GlobalId) -> u64
    ensures { result ≡ global_address store.now global }
{
    match store.global(global) {
        Some(global) => global.address,
        None => 0,
    }
}

/// A part among the nodes before a number, as an expression.
fn part(term: TermId, below: u64) -> Piece
    ensures { result ≡ part below term }
{
    Piece::Expression(term, below)
}

/// The pieces of an expression whose parts are among the nodes before a number.
pub fn pieces_of_expression(
    store: &Store,
    below: u64,
    expression: &Expression,
) -> Result<Vec<Piece>, NoMemory>
    ensures { IfOk result (λ v. v.items ≡ expression_pieces store.now below expression.now) }
{
    let alloc = store.allocator();
    match expression {
        Expression::Number(bits, of) => list(
            alloc,
            &[
                Piece::Number(*bits, *of),
                Piece::Word(Word::Colon),
                Piece::Type(*of),
            ],
        ),
        Expression::Truth(true) => list(alloc, &[Piece::Word(Word::True)]),
        Expression::Truth(false) => list(alloc, &[Piece::Word(Word::False)]),
        Expression::Nil => list(alloc, &[Piece::Word(Word::Nil)]),
        Expression::Variable(symbol) => list(alloc, &[Piece::Symbol(*symbol)]),
        Expression::Function(f) => list(alloc, &[Piece::Function(*f)]),
        Expression::Primitive(primitive) => list(alloc, &[Piece::Primitive(*primitive)]),
        Expression::Static(address) => with_piece(alloc, Word::Static, Piece::Decimal(*address)),
        Expression::Global(global) => {
            let address = address_of_global(store, *global);
            with_piece(alloc, Word::Global, Piece::Decimal(address))
        }
        Expression::Type(of) => with_piece(alloc, Word::Type, Piece::Type(*of)),
        Expression::Macro(id) => with_piece(alloc, Word::Macro, Piece::Macro(*id)),
        Expression::SizeOf => list(alloc, &[Piece::Word(Word::SizeOf)]),
        Expression::Unary(operator, a) => list(
            alloc,
            &[OPEN, Piece::Unary(*operator), SPACE, part(*a, below), CLOSE],
        ),
        Expression::Binary(operator, a, b) => list(
            alloc,
            &[
                OPEN,
                Piece::Binary(*operator),
                SPACE,
                part(*a, below),
                SPACE,
                part(*b, below),
                CLOSE,
            ],
        ),
        Expression::Call(callee, arguments) => with_parts(
            alloc,
            &[OPEN, Piece::Word(Word::Call), SPACE, part(*callee, below)],
            PartKind::Expression,
            below,
            arguments.as_slice(),
            &[CLOSE],
        ),
        Expression::Method(object, name, arguments) => with_parts(
            alloc,
            &[
                OPEN,
                Piece::Word(Word::Method),
                SPACE,
                part(*object, below),
                SPACE,
                Piece::Name(*name),
            ],
            PartKind::Expression,
            below,
            arguments.as_slice(),
            &[CLOSE],
        ),
        Expression::Select(object, field) => list(
            alloc,
            &[
                OPEN,
                Piece::Word(Word::Dot),
                SPACE,
                part(*object, below),
                SPACE,
                Piece::Name(*field),
                CLOSE,
            ],
        ),
        Expression::Index(array, index) => list(
            alloc,
            &[
                OPEN,
                Piece::Word(Word::Index),
                SPACE,
                part(*array, below),
                SPACE,
                part(*index, below),
                CLOSE,
            ],
        ),
        Expression::New(of, initialiser) => pieces_of_new(alloc, below, *of, initialiser),
        Expression::Let(block, value) => with_parts(
            alloc,
            &[OPEN, Piece::Word(Word::Let)],
            PartKind::Statement,
            below,
            block.as_slice(),
            &[SPACE, part(*value, below), CLOSE],
        ),
        Expression::Typed(source, _) => list(alloc, &[part(*source, below)]),
    }
}

/// The pieces of a constructor.
fn pieces_of_new(
    alloc: Global,
    below: u64,
    of: TypeId,
    initialiser: &Initialiser,
) -> Result<Vec<Piece>, NoMemory>
    ensures { IfOk result (λ v. v.items ≡ new_pieces below of initialiser.now) }
{
    let mut pieces = list(
        alloc,
        &[OPEN, Piece::Word(Word::New), SPACE, Piece::Type(of)],
    )?;
    match initialiser {
        Initialiser::Positional(values) => {
            push_parts(&mut pieces, PartKind::Expression, below, values.as_slice())?;
        }
        Initialiser::Named(fields, values) => {
            push_named_values(&mut pieces, below, fields.as_slice(), values.as_slice())?;
        }
    }
    pieces.push(CLOSE)?;
    Ok(pieces)
}

/// The pieces of a `var`.
fn pieces_of_var(
    alloc: Global,
    below: u64,
    names: &[VarName],
    values: &Option<TermList>,
) -> Result<Vec<Piece>, NoMemory>
    ensures { IfOk result (λ v. v.items ≡ var_pieces below names.now values.now) }
{
    let mut pieces = list(alloc, &[OPEN, Piece::Word(Word::Var), SPACE, OPEN])?;
    push_names(&mut pieces, names)?;
    pieces.push(CLOSE)?;
    if let Some(values) = values {
        push_parts(&mut pieces, PartKind::Expression, below, values.as_slice())?;
    }
    pieces.push(CLOSE)?;
    Ok(pieces)
}

/// The pieces of an assignment.
fn pieces_of_assignment(
    alloc: Global,
    below: u64,
    targets: &[TermId],
    values: &[TermId],
) -> Result<Vec<Piece>, NoMemory>
    ensures { IfOk result (λ v. v.items ≡ assignment_pieces below targets.now values.now) }
{
    let mut pieces = list(alloc, &[OPEN, Piece::Word(Word::Set), SPACE, OPEN])?;
    push_listed(&mut pieces, below, targets)?;
    pieces.extend_from_slice(&[CLOSE, SPACE, OPEN])?;
    push_listed(&mut pieces, below, values)?;
    pieces.extend_from_slice(&[CLOSE, CLOSE])?;
    Ok(pieces)
}

/// The pieces of an `if`.
fn pieces_of_choice(
    alloc: Global,
    below: u64,
    test: TermId,
    then_block: &[TermId],
    else_block: &Option<TermList>,
) -> Result<Vec<Piece>, NoMemory>
    ensures { IfOk result (λ v. v.items ≡ choice_pieces below test then_block.now else_block.now) }
{
    let mut pieces = with_parts(
        alloc,
        &[
            OPEN,
            Piece::Word(Word::If),
            SPACE,
            part(test, below),
            SPACE,
            OPEN,
            Piece::Word(Word::Do),
        ],
        PartKind::Statement,
        below,
        then_block,
        &[CLOSE],
    )?;
    if let Some(else_block) = else_block {
        pieces.extend_from_slice(&[SPACE, OPEN, Piece::Word(Word::Do)])?;
        push_parts(
            &mut pieces,
            PartKind::Statement,
            below,
            else_block.as_slice(),
        )?;
        pieces.push(CLOSE)?;
    }
    pieces.push(CLOSE)?;
    Ok(pieces)
}

/// The pieces of a numeric `for`.
fn pieces_of_for(
    alloc: Global,
    below: u64,
    name: &VarName,
    bounds: &[TermId],
    body: &[TermId],
) -> Result<Vec<Piece>, NoMemory>
    ensures { IfOk result (λ v. v.items ≡ for_pieces below name.now bounds.now body.now) }
{
    let mut pieces = list(
        alloc,
        &[
            OPEN,
            Piece::Word(Word::For),
            SPACE,
            Piece::Symbol(name.symbol),
        ],
    )?;
    push_bounds(&mut pieces, below, bounds)?;
    push_parts(&mut pieces, PartKind::Statement, below, body)?;
    pieces.push(CLOSE)?;
    Ok(pieces)
}

/// The pieces of a statement whose parts are among the nodes before a number.
pub fn pieces_of_statement(
    alloc: Global,
    below: u64,
    statement: &Statement,
) -> Result<Vec<Piece>, NoMemory>
    ensures { IfOk result (λ v. v.items ≡ statement_pieces below statement.now) }
{
    match statement {
        Statement::Var(names, values) => pieces_of_var(alloc, below, names.as_slice(), values),
        Statement::Assign(targets, values) => {
            pieces_of_assignment(alloc, below, targets.as_slice(), values.as_slice())
        }
        Statement::If(test, then_block, else_block) => {
            pieces_of_choice(alloc, below, *test, then_block.as_slice(), else_block)
        }
        Statement::While(test, body) => with_parts(
            alloc,
            &[OPEN, Piece::Word(Word::While), SPACE, part(*test, below)],
            PartKind::Statement,
            below,
            body.as_slice(),
            &[CLOSE],
        ),
        Statement::Repeat(body, test) => with_parts(
            alloc,
            &[
                OPEN,
                Piece::Word(Word::Repeat),
                SPACE,
                OPEN,
                Piece::Word(Word::Do),
            ],
            PartKind::Statement,
            below,
            body.as_slice(),
            &[CLOSE, SPACE, part(*test, below), CLOSE],
        ),
        Statement::For(name, bounds, body) => {
            pieces_of_for(
                alloc,
                below,
                name.name(),
                bounds.as_slice(),
                body.as_slice(),
            )
        }
        Statement::Do(body) => with_parts(
            alloc,
            &[OPEN, Piece::Word(Word::Do)],
            PartKind::Statement,
            below,
            body.as_slice(),
            &[CLOSE],
        ),
        Statement::Break => list(alloc, &[OPEN, Piece::Word(Word::Break), CLOSE]),
        Statement::Return(values) => with_parts(
            alloc,
            &[OPEN, Piece::Word(Word::Return)],
            PartKind::Expression,
            below,
            values.as_slice(),
            &[CLOSE],
        ),
        Statement::Perform(value) => with_piece(alloc, Word::Perform, part(*value, below)),
    }
}

/// The pieces of a function whose body is among the nodes before a number.
pub fn pieces_of_definition(
    alloc: Global,
    f: FnId,
    below: u64,
    parameters: &[Parameter],
    of: Option<TypeId>,
    body: &[TermId],
) -> Result<Vec<Piece>, NoMemory>
    ensures { IfOk result (λ v. v.items ≡ definition_pieces f below parameters.now of body.now) }
{
    let mut pieces = list(
        alloc,
        &[
            OPEN,
            Piece::Word(Word::Fn),
            SPACE,
            Piece::Function(f),
            SPACE,
            OPEN,
        ],
    )?;
    push_parameters(&mut pieces, parameters)?;
    let written = match of {
        Some(of) => Piece::Type(of),
        None => Piece::Word(Word::Unwritten),
    };
    pieces.extend_from_slice(&[CLOSE, SPACE, written])?;
    push_parts(&mut pieces, PartKind::Statement, below, body)?;
    pieces.push(CLOSE)?;
    Ok(pieces)
}

/// Puts types behind pieces, each behind a comma.
fn push_comma_types(pieces: &mut Vec<Piece>, below: u64, types: &[TypeId]) -> Result<(), NoMemory>
    ensures { OnOk result (pieces.new.items ≡ pieces.old.items ++ comma_types below types.now) }
{
    for of in types {
        pieces.push(Piece::Word(Word::Comma))?;
        pieces.push(Piece::TypeBefore(*of, below))?;
    }
    Ok(())
}

/// Puts types behind pieces, with a comma between.
fn push_types(pieces: &mut Vec<Piece>, below: u64, types: &[TypeId]) -> Result<(), NoMemory>
    ensures { OnOk result (pieces.new.items ≡ pieces.old.items ++ listed_types below types.now) }
{
    if let [first, rest @ ..] = types {
        pieces.push(Piece::TypeBefore(*first, below))?;
        push_comma_types(pieces, below, rest)?;
    }
    Ok(())
}

/// The pieces of a function type.
fn pieces_of_function_type(
    alloc: Global,
    below: u64,
    parameters: &[TypeId],
    of: TypeId,
) -> Result<Vec<Piece>, NoMemory>
    ensures { IfOk result (λ v. v.items ≡ function_type_pieces below parameters.now of) }
{
    let mut pieces = list(alloc, &[Piece::Word(Word::OpenBrace)])?;
    push_types(&mut pieces, below, parameters)?;
    pieces.extend_from_slice(&[Piece::Word(Word::Arrow), Piece::TypeBefore(of, below)])?;
    Ok(pieces)
}

/// The pieces of a type that is made of types before a number.
pub fn pieces_of_type(alloc: Global, below: u64, form: &TypeForm) -> Result<Vec<Piece>, NoMemory>
    ensures { IfOk result (λ v. v.items ≡ type_pieces below form.now) }
{
    match form {
        TypeForm::Integer(integer) => list(alloc, &[Piece::Integer(*integer)]),
        TypeForm::Bool => list(alloc, &[Piece::Word(Word::Bool)]),
        TypeForm::Unit => list(alloc, &[Piece::Word(Word::Unit)]),
        TypeForm::Pointer(of) => list(
            alloc,
            &[Piece::Word(Word::Pointer), Piece::TypeBefore(*of, below)],
        ),
        TypeForm::Array(of, count) => list(
            alloc,
            &[
                Piece::TypeBefore(*of, below),
                Piece::Word(Word::OpenIndex),
                Piece::Decimal(*count),
                Piece::Word(Word::CloseIndex),
            ],
        ),
        TypeForm::Function(parameters, of) => {
            pieces_of_function_type(alloc, below, parameters.as_slice(), *of)
        }
        TypeForm::Struct(number, _, _) => list(
            alloc,
            &[Piece::Word(Word::Struct), Piece::Decimal(*number)],
        ),
    }
}
