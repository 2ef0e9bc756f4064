// Entries and elements of aggregates.

ghost use Rattle.std.specs.Prelude.{◌≡◌, ℕ, codes, IfOk, OnOk, if◌then◌else◌};
ghost use Rattle.check_model.specs.Expressions as models;
ghost use Rattle.terra_term.specs.WellTyped.{integer_form};
ghost use Rattle.check_model.specs.Plans as plans;
ghost use Rattle.check_model.specs.Structs as structs;
ghost use Rattle.check_model.specs.Typing as typings;
ghost use Rattle.terra_types.specs.Layouts.{entries_of, entry_named};
ghost use Rattle.check_expr.specs.Forms.{elements_in};
ghost use Rattle.check_expr.specs.Frames.{laid_then, extracted};
ghost use Rattle.check_expr.specs.Keeping.{KeepsTyping};
ghost use Rattle.check_expr.specs.Steps.{Goes, Does};

use crate::asking::{ask, two_values};
use crate::converting::one;
use crate::frame::{AskedThen, BodyFrame, LaidThen, MadeFrame};
use crate::layouts::{as_value, lay_out};
use crate::nodes::{gives, new_quote, refuse};
use crate::reading::{is_integer, is_struct, metamethod, struct_of};
use crate::step::{BodyStep, Node};
use check_model::{Made, Typing};
use exotype::World;
use lua_value::Value;
use terra_term::{Operation, RefusalKind, TypedExpression};
use terra_types::{Laid, TypeForm};
use tl_base::{NoMemory, TextId, TypeId};

/// Selects an entry of a typed object.
pub fn select(
    frames: &mut Vec<BodyFrame>,
    typing: &mut Typing,
    object: Made,
    field: TextId,
    node: Node,
) -> Result<BodyStep, NoMemory>
    ensures means { IfOk result (λ step. (left : ℕ) →
        Goes frames.old.items
        (models.select_plan (typings.struct_of typing.old.stage object.of) object field node.at node.source node.site)
        typing.old left frames.new.items step typing.new left) }
    ensures kept { OnOk result (KeepsTyping typing.old typing.new) }
{
    match struct_of(&typing.world, object.of) {
        None => Ok(refuse(RefusalKind::NoField, node.at, node.site)),
        Some(of) => {
            let then = LaidThen::Entry(of, object, field, node);
            lay_out(frames, typing, of, node.at, node.site, then)
        }
    }
}

/// The entry of a struct under a name.
pub fn entry_of(world: &World, of: TypeId, field: TextId) -> Option<Laid>
    ensures { result ≡ entry_named field (entries_of world.now.store.types of) }
{
    match world.store.types().form(of) {
        Some(TypeForm::Struct(_, _, Some(layout))) => layout.entries.find(field),
        _ => None,
    }
}

/// An entry of a struct whose layout is settled.
pub fn with_entry(
    frames: &mut Vec<BodyFrame>,
    typing: &mut Typing,
    of: TypeId,
    object: Made,
    field: TextId,
    node: Node,
) -> Result<BodyStep, NoMemory>
    ensures means { IfOk result (λ step. (left : ℕ) →
        Goes frames.old.items (laid_then (LaidThen.Entry of object field node) node.site)
        typing.old left frames.new.items step typing.new left) }
    ensures kept { OnOk result (KeepsTyping typing.old typing.new) }
{
    match entry_of(&typing.world, of, field) {
        Some(laid) => entry(frames, typing, object, laid, node),
        None => missing_entry(frames, typing, of, object, field, node),
    }
}

/// An entry that isn't there, for which `__entrymissing` is asked.
fn missing_entry(
    frames: &mut Vec<BodyFrame>,
    typing: &mut Typing,
    of: TypeId,
    object: Made,
    field: TextId,
    node: Node,
) -> Result<BodyStep, NoMemory>
    ensures means { IfOk result (λ step. (left : ℕ) →
        Goes frames.old.items
        (models.missing_entry (structs.metamethod typing.old.stage of (codes "__entrymissing")) object field node.at node.site)
        typing.old left frames.new.items step typing.new left) }
    ensures kept { OnOk result (KeepsTyping typing.old typing.new) }
{
    let handler = metamethod(&typing.world, of, b"__entrymissing");
    if handler.is_nil() {
        return Ok(refuse(RefusalKind::NoField, node.at, node.site));
    }
    let object = new_quote(typing, object)?;
    let arguments = two_values(typing, Value::Text(field), object)?;
    let then = AskedThen::InPlace(node.at, node.site);
    ask(frames, handler, arguments, node.at, then)
}

/// An entry of a place, of a pointer's target, or of a value.
fn entry(
    frames: &mut Vec<BodyFrame>,
    typing: &mut Typing,
    object: Made,
    laid: Laid,
    node: Node,
) -> Result<BodyStep, NoMemory>
    ensures means { IfOk result (λ step. (left : ℕ) →
        Goes frames.old.items (models.entry typing.old.stage object laid node.at node.source node.site)
        typing.old left frames.new.items step typing.new left) }
    ensures kept { OnOk result (KeepsTyping typing.old typing.new) }
{
    if is_struct(&typing.world, object.of) {
        if object.is_place {
            let form = TypedExpression::Select(laid.offset, object.id);
            gives(typing, node.source, node.at, laid.of, form)
        } else {
            frames.push(BodyFrame::Made(MadeFrame::Extract(laid, node)))?;
            as_value(frames, typing, object, node.site)
        }
    } else {
        let form = TypedExpression::Follow(laid.offset, object.id);
        gives(typing, node.source, node.at, laid.of, form)
    }
}

/// An entry of a value.
pub fn extract(
    typing: &mut Typing,
    laid: Laid,
    node: Node,
    object: Made,
) -> Result<BodyStep, NoMemory>
    ensures means { IfOk result (λ step. (left : ℕ) →
        Does (extracted laid node object) typing.old left step typing.new left) }
    ensures kept { OnOk result (KeepsTyping typing.old typing.new) }
{
    let list = one(typing, object.id)?;
    let form = TypedExpression::Operate(Operation::Extract(laid.offset), list);
    gives(typing, node.source, node.at, laid.of, form)
}

/// What a type has elements of.
#[derive(Clone, Copy)]
enum Elements {
    Behind(TypeId),
    Within(TypeId),
    Nothing,
}

/// What a type has elements of: a pointer's target, or an array's elements.
fn elements_of(world: &World, of: TypeId) -> Elements
    ensures { result ≡ elements_in (typings.form_in world.now of) }
{
    match world.store.types().form(of) {
        Some(TypeForm::Pointer(to)) => Elements::Behind(*to),
        Some(TypeForm::Array(of, _)) => Elements::Within(*of),
        _ => Elements::Nothing,
    }
}

/// An element by its index.
pub fn index(
    frames: &mut Vec<BodyFrame>,
    typing: &mut Typing,
    object: Made,
    key: Made,
    node: Node,
) -> Result<BodyStep, NoMemory>
    ensures means { IfOk result (λ step. (left : ℕ) →
        Goes frames.old.items (models.index_plan typing.old.stage object key node.at node.source node.site)
        typing.old left frames.new.items step typing.new left) }
    ensures kept { OnOk result (KeepsTyping typing.old typing.new) }
{
    match elements_of(&typing.world, object.of) {
        Elements::Within(of) => {
            if !object.is_place {
                return Ok(refuse(RefusalKind::NotPlace, object.at, node.site));
            }
            let form = TypedExpression::Element(object.id, key.id);
            indexed(frames, typing, of, form, key, node)
        }
        Elements::Behind(of) => {
            let form = TypedExpression::Index(object.id, key.id);
            indexed(frames, typing, of, form, key, node)
        }
        Elements::Nothing => Ok(refuse(RefusalKind::BadOperand, node.at, node.site)),
    }
}

/// An element of a type, whose index must be an integer.
fn indexed(
    frames: &mut Vec<BodyFrame>,
    typing: &mut Typing,
    of: TypeId,
    form: TypedExpression,
    key: Made,
    node: Node,
) -> Result<BodyStep, NoMemory>
    ensures means { IfOk result (λ step. (left : ℕ) →
        Goes frames.old.items
        (if integer_form (typings.form_in typing.old.stage key.of)
        then plans.laid_out of node.at node.site (plans.gives node.source node.at of form)
        else plans.refuse RefusalKind.BadOperand node.at node.site)
        typing.old left frames.new.items step typing.new left) }
    ensures kept { OnOk result (KeepsTyping typing.old typing.new) }
{
    if is_integer(&typing.world, key.of) {
        let then = LaidThen::Makes(of, form, node);
        lay_out(frames, typing, of, node.at, node.site, then)
    } else {
        Ok(refuse(RefusalKind::BadOperand, node.at, node.site))
    }
}
