// `var`: what stands in the place of its names, and the names that it declares.

ghost use Rattle.std.specs.Prelude.{◌≡◌, ℕ, [], ◌∷◌, ◌++◌, List, Option, Some, IfOk, OnOk};
ghost use Rattle.tl_tree.specs.Arena.{items_of};
ghost use Rattle.tl_tree.specs.Code.{Items, place_at};
ghost use Rattle.terra_term.specs.declared.term.Statement.TheVariants as kinds;
ghost use Rattle.spec_model.specs.Nodes.{typing_at};
ghost use Rattle.spec_model.specs.Making.{symbol_type};
ghost use Rattle.terra_term.specs.declared.lists.VarName.{VarName};
ghost use Rattle.spec_model.specs.Plans as models;
ghost use Rattle.spec_model.specs.Types.{type_if_any};
ghost use Rattle.spec_model.specs.Statements as plans;
ghost use Rattle.spec_machine.specs.Frames as waiting;
ghost use Rattle.spec_machine.specs.Variables.{wanted_at};
ghost use Rattle.spec_machine.specs.Keeping.{KeepsStage};
ghost use Rattle.spec_machine.specs.Steps.{Goes, Does, Gets};

use crate::code::{escaped, typing_at};
use crate::frame::{NextFrame, SpecFrame, TermsFrame, TermsThen, ValueFrame, VarFrame};
use crate::making::new_symbol;
use crate::names::declare;
use crate::reached::SpecStep;
use crate::row::list_if_any;
use crate::terms::join;
use exotype::World;
use lua_value::Value;
use spec_model::{End, Job, SpecQuestion, Wanted};
use terra_term::{Statement, VarName, VarNameList};
use tl_base::{Budget, EnvId, List, NoMemory, NodeId, Place, Step, SymId, TermId, TypeId};
use tl_tree::Tree;
use tl_tree::code::place;

/// Goes on with the variables that are left.
pub fn variables<'a>(
    tree: &'a Tree<'a>,
    frames: &mut Vec<SpecFrame<'a>>,
    world: &mut World,
    budget: &mut Budget,
    frame: VarFrame<'a>,
) -> Result<SpecStep, NoMemory>
    ensures means { IfOk result (λ step.
        Goes (items_of tree.now) frames.old.items
        (waiting.wanted_from (items_of tree.now) frame.entry frame.entry.rest.now frame.entry.wanted)
        world.old budget.old frames.new.items step world.new budget.new) }
    ensures kept { OnOk result (KeepsStage world.old world.new) }
{
    let nodes = frame.rest;
    match nodes.split_first() {
        None => values(frames, world, frame),
        Some((first, rest)) => {
            if !budget.pay(1) {
                return Ok(Step::Spent);
            }
            variable(tree, frames, world, *first, VarFrame { rest, ..frame })
        }
    }
}

/// What stands in the place of a variable.
fn variable<'a>(
    tree: &'a Tree<'a>,
    frames: &mut Vec<SpecFrame<'a>>,
    world: &mut World,
    node: NodeId,
    frame: VarFrame<'a>,
) -> Result<SpecStep, NoMemory>
    ensures means { IfOk result (λ step. (left : ℕ) →
        Goes (items_of tree.now) frames.old.items
        (waiting.variable_plan (items_of tree.now) node frame.entry)
        world.old left frames.new.items step world.new left) }
    ensures kept { OnOk result (KeepsStage world.old world.new) }
{
    match escaped(tree, typing_at(tree, node).name) {
        Some(code) => {
            let env = frame.env;
            frames.push(SpecFrame::Value(ValueFrame::Symbols(node, frame)))?;
            Ok(Step::Stop(SpecQuestion::Eval(code, env)))
        }
        None => variable_type(tree, frames, world, node, None, frame),
    }
}

/// Evaluates a variable's type where one is written.
pub fn variable_type<'a>(
    tree: &'a Tree<'a>,
    frames: &mut Vec<SpecFrame<'a>>,
    world: &mut World,
    node: NodeId,
    symbols: Option<List<SymId>>,
    frame: VarFrame<'a>,
) -> Result<SpecStep, NoMemory>
    ensures means { IfOk result (λ step. (left : ℕ) →
        Goes (items_of tree.now) frames.old.items
        (type_if_any (items_of tree.now) (typing_at (items_of tree.now) node).type frame.entry.env
        (λ of. waiting.with_wanted (items_of tree.now) node symbols frame.entry of))
        world.old left frames.new.items step world.new left) }
    ensures kept { OnOk result (KeepsStage world.old world.new) }
{
    match typing_at(tree, node).of {
        Some(of) => {
            let env = frame.env;
            let value = ValueFrame::VarType(node, of, symbols, frame);
            frames.push(SpecFrame::Value(value))?;
            Ok(Step::Stop(SpecQuestion::Eval(of, env)))
        }
        None => {
            let frame = with_wanted(tree, node, symbols, None, frame)?;
            frames.push(SpecFrame::Next(NextFrame::Var(frame)))?;
            Ok(Step::Return(End::Gave(Value::Nil)))
        }
    }
}

/// The `var` behind a variable, in whose place this stands.
pub fn with_wanted<'a>(
    tree: &'a Tree<'a>,
    node: NodeId,
    symbols: Option<List<SymId>>,
    of: Option<TypeId>,
    frame: VarFrame<'a>,
) -> Result<VarFrame<'a>, NoMemory>
    ensures rest { IfOk result (λ f. f.rest.now ≡ frame.entry.rest.now) }
    ensures values { IfOk result (λ f. f.values.now ≡ frame.entry.values.now) }
    ensures place { IfOk result (λ f. f.place ≡ frame.entry.place) }
    ensures env { IfOk result (λ f. f.env ≡ frame.entry.env) }
    ensures wanted { IfOk result (λ f.
        f.wanted ≡ frame.entry.wanted ++ waiting.wanted_of (items_of tree.now) node symbols of) }
{
    let at = place(tree, typing_at(tree, node).name);
    let VarFrame {
        rest,
        values,
        place,
        env,
        wanted,
    } = frame;
    let wanted = placed(wanted, symbols, of, at)?;
    Ok(VarFrame {
        rest,
        values,
        place,
        env,
        wanted,
    })
}

/// Puts what stands in the place of a variable behind what stands in the place of others.
fn placed(
    before: List<Wanted>,
    symbols: Option<List<SymId>>,
    of: Option<TypeId>,
    at: Place,
) -> Result<List<Wanted>, NoMemory>
    ensures { IfOk result (λ all. all ≡ before ++ wanted_at symbols of at) }
{
    let mut wanted = before;
    match symbols {
        Some(symbols) => {
            given(&mut wanted, symbols.as_slice(), of, at)?;
            Ok(wanted)
        }
        None => {
            wanted.push(Wanted {
                symbol: None,
                of,
                place: at,
            })?;
            Ok(wanted)
        }
    }
}

/// Puts symbols in the place of a variable behind what stands in the place of others.
fn given(
    wanted: &mut List<Wanted>,
    symbols: &[SymId],
    of: Option<TypeId>,
    at: Place,
) -> Result<(), NoMemory>
    ensures { OnOk result (wanted.new ≡ wanted.old ++ plans.given symbols.now of at) }
{
    'symbols: for symbol in symbols {
        wanted.push(Wanted {
            symbol: Some(*symbol),
            of,
            place: at,
        })?;
    }
    Ok(())
}

/// Specialises the values behind `=`, if it is there.
fn values<'a>(
    frames: &mut Vec<SpecFrame<'a>>,
    world: &mut World,
    frame: VarFrame<'a>,
) -> Result<SpecStep, NoMemory>
    ensures means { IfOk result (λ step. (items : Items) (left : ℕ) →
        Goes items frames.old.items (waiting.wanted_from items frame.entry [] frame.entry.wanted)
        world.old left frames.new.items step world.new left) }
    ensures kept { OnOk result (KeepsStage world.old world.new) }
{
    let VarFrame {
        values,
        place,
        env,
        wanted,
        ..
    } = frame;
    match values.split_first() {
        None => declared(world, wanted, env, None, place),
        Some((first, rest)) => {
            let frame = TermsFrame {
                rest,
                env,
                terms: List::new(world.heap.allocator()),
                then: TermsThen::Var(wanted, place),
            };
            frames.push(SpecFrame::Terms(frame))?;
            Ok(Step::Enter(Job::Expression(*first, env)))
        }
    }
}

/// Draws the symbols of plain names, declares these, and makes the statement.
pub fn declared(
    world: &mut World,
    wanted: List<Wanted>,
    env: EnvId,
    values: Option<List<TermId>>,
    place: Place,
) -> Result<SpecStep, NoMemory>
    ensures means { IfOk result (λ step. (items : Items) (left : ℕ) →
        Does items (plans.drawn wanted env [] (λ names. models.join place (kinds.Var names values)))
        world.old left step world.new left) }
    ensures kept { OnOk result (KeepsStage world.old world.new) }
{
    let names = drawn(world, wanted.as_slice(), env)?;
    let values = list_if_any(values)?;
    join(world, place, Statement::Var(names, values))
}

/// Draws the symbols of plain names, in their order, and declares these.
fn drawn(world: &mut World, wanted: &[Wanted], env: EnvId) -> Result<VarNameList, NoMemory>
    ensures means { IfOk result (λ names. Gets (λ go. plans.drawn wanted.now env [] go) world.old names world.new) }
    ensures kept { OnOk result (KeepsStage world.old world.new) }
{
    let mut names = Vec::new(world.heap.allocator());
    'variables: for variable in wanted {
        let name = drawn_one(world, *variable, env)?;
        names.push(name)?;
    }
    VarNameList::from_vec(names)
}

/// The name that a `var` declares in this place.
fn drawn_one(world: &mut World, wanted: Wanted, env: EnvId) -> Result<VarName, NoMemory>
    ensures means { IfOk result (λ name. (names : List VarName) →
        Gets (λ go. plans.drawn_one wanted wanted.symbol env names go) world.old (names ++ name ∷ []) world.new) }
    ensures kept { OnOk result (KeepsStage world.old world.new) }
{
    match wanted.symbol {
        Some(symbol) => Ok(VarName {
            symbol,
            of: or_own(world, wanted.of, symbol),
            place: wanted.place,
        }),
        None => {
            let symbol = new_symbol(world, wanted.of)?;
            declare(world, env, Value::Symbol(symbol))?;
            Ok(VarName {
                symbol,
                of: wanted.of,
                place: wanted.place,
            })
        }
    }
}

/// The type that is written, or the symbol's own.
fn or_own(world: &World, of: Option<TypeId>, symbol: SymId) -> Option<TypeId>
    ensures { result ≡ plans.or_own of (symbol_type world.now symbol) }
{
    match of {
        Some(of) => Some(of),
        None => match world.store.symbol(symbol) {
            Some(symbol) => symbol.of,
            None => None,
        },
    }
}
