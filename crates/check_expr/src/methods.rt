// Method calls.

ghost use Rattle.std.specs.Prelude.{◌≡◌, ℕ, codes, IfOk, OnOk};
ghost use Rattle.exotype.specs.Properties.{known_of};
ghost use Rattle.check_model.specs.Expressions as models;
ghost use Rattle.check_model.specs.Structs as structs;
ghost use Rattle.check_model.specs.Typing as typings;
ghost use Rattle.check_model.specs.Typing.{TypingState};
ghost use Rattle.check_expr.specs.Asking.{with_method, with_settled};
ghost use Rattle.check_expr.specs.Keeping.{KeepsTyping};
ghost use Rattle.check_expr.specs.Frames.{given_then};
ghost use Rattle.check_expr.specs.Steps.{Goes, with_stage};

use crate::asking::{ask, quotes_left, two_values};
use crate::calls::{call_becoming, untyped};
use crate::frame::{AskedThen, BodyFrame, QuotesFrame};
use crate::nodes::{new_quote, refuse};
use crate::reading::{metamethod, method, struct_of};
use crate::step::{BodyStep, Node};
use check_model::rest::Rest;
use check_model::{Made, Typing};
use exotype::{Known, Property, what_is_kept_is_known};
use lua_value::Value;
use terra_term::RefusalKind;
use tl_base::{Budget, NoMemory, TermId, TextId, TypeId};

/// Calls a method of a typed object.
pub fn call_method(
    frames: &mut Vec<BodyFrame>,
    typing: &mut Typing,
    budget: &mut Budget,
    object: Made,
    name: TextId,
    arguments: Rest<TermId>,
    node: Node,
) -> Result<BodyStep, NoMemory>
    ensures means { IfOk result (λ step.
        Goes frames.old.items
        (models.method_plan typing.old.stage (typings.struct_of typing.old.stage object.of) object name arguments
        node.at node.source node.site)
        typing.old budget.old frames.new.items step typing.new budget.new) }
    ensures kept { OnOk result (KeepsTyping typing.old typing.new) }
{
    match struct_of(&typing.world, object.of) {
        None => Ok(refuse(RefusalKind::NoMethod, node.at, node.site)),
        Some(of) => method_of(frames, typing, budget, of, object, name, arguments, node),
    }
}

/// Calls a method of a struct, by what is known of it.
fn method_of(
    frames: &mut Vec<BodyFrame>,
    typing: &mut Typing,
    budget: &mut Budget,
    of: TypeId,
    object: Made,
    name: TextId,
    arguments: Rest<TermId>,
    node: Node,
) -> Result<BodyStep, NoMemory>
    ensures means { IfOk result (λ step.
        Goes frames.old.items
        (models.the_method typing.old.stage of name node.at node.site
        (λ v. models.call_method v of object name arguments node.at node.source node.site))
        typing.old budget.old frames.new.items step typing.new budget.new) }
    ensures kept { OnOk result (KeepsTyping typing.old typing.new) }
{
    match typing.world.kept.known(Property::Method(of, name)) {
        Known::Value(value) => {
            as_method(
                frames, typing, budget, value, of, object, name, arguments, node,
            )
        }
        Known::Refused(kind) => Ok(refuse(kind, node.at, node.site)),
        Known::Asked => Ok(refuse(RefusalKind::Incomplete, node.at, node.site)),
        Known::Unasked => find_method(frames, typing, budget, of, object, name, arguments, node),
    }
}

/// Calls a method of a struct that wasn't asked for yet.
fn find_method(
    frames: &mut Vec<BodyFrame>,
    typing: &mut Typing,
    budget: &mut Budget,
    of: TypeId,
    object: Made,
    name: TextId,
    arguments: Rest<TermId>,
    node: Node,
) -> Result<BodyStep, NoMemory>
    requires { known_of typing.old.stage.kept (Property.Method of name) ≡ Known.Unasked }
    ensures means { IfOk result (λ step.
        Goes frames.old.items
        (models.by_known typing.old.stage Known.Unasked of name node.at node.site
        (λ v. models.call_method v of object name arguments node.at node.source node.site))
        typing.old budget.old frames.new.items step typing.new budget.new) }
    ensures kept { OnOk result (KeepsTyping typing.old typing.new) }
{
    let handler = metamethod(&typing.world, of, b"__getmethod");
    let own = method(&typing.world, of, name);
    begin_method(typing, of, name)?;
    if handler.is_nil() {
        given_method(
            frames, typing, budget, of, name, own, object, arguments, node,
        )
    } else {
        ask_method(frames, typing, handler, of, object, name, arguments, node)
    }
}

/// A method is being asked for from now on. It wasn't before.
fn begin_method(typing: &mut Typing, of: TypeId, name: TextId) -> Result<(), NoMemory>
    requires { known_of typing.old.stage.kept (Property.Method of name) ≡ Known.Unasked }
    ensures ok { OnOk result (typing.new ≡ with_stage typing.old (with_method typing.old.stage of name Known.Asked)) }
    ensures kept { OnOk result (KeepsTyping typing.old typing.new) }
{
    what_is_kept_is_known();
    typing.world.kept.begin(Property::Method(of, name))
}

/// Asks `__getmethod` for a method.
fn ask_method(
    frames: &mut Vec<BodyFrame>,
    typing: &Typing,
    handler: Value,
    of: TypeId,
    object: Made,
    name: TextId,
    arguments: Rest<TermId>,
    node: Node,
) -> Result<BodyStep, NoMemory>
    ensures means { IfOk result (λ step. (w : TypingState) (left : ℕ) →
        Goes frames.old.items
        (models.asked_method handler of name node.at node.site
        (λ v. models.call_method v of object name arguments node.at node.source node.site))
        w left frames.new.items step w left) }
{
    let values = two_values(typing, Value::TerraType(of), Value::Text(name))?;
    let then = AskedThen::Method(of, name, object, arguments, node);
    ask(frames, handler, values, node.at, then)
}

/// Keeps the value that is a method, and calls it.
pub fn given_method(
    frames: &mut Vec<BodyFrame>,
    typing: &mut Typing,
    budget: &mut Budget,
    of: TypeId,
    name: TextId,
    value: Value,
    object: Made,
    arguments: Rest<TermId>,
    node: Node,
) -> Result<BodyStep, NoMemory>
    ensures means { IfOk result (λ step.
        Goes frames.old.items (given_then (AskedThen.Method of name object arguments node) value)
        typing.old budget.old frames.new.items step typing.new budget.new) }
    ensures kept { OnOk result (KeepsTyping typing.old typing.new) }
{
    settle_method(typing, of, name, Known::Value(value.copy()));
    as_method(
        frames, typing, budget, value, of, object, name, arguments, node,
    )
}

/// Keeps what is known of a method, where it is being asked for. Whoever asked is the one who settles, so else nothing is changed.
pub fn settle_method(typing: &mut Typing, of: TypeId, name: TextId, known: Known)
    ensures settled { typing.new ≡ with_stage typing.old (with_settled typing.old.stage of name known) }
    ensures kept { KeepsTyping typing.old typing.new }
{
    what_is_kept_is_known();
    match typing.world.kept.known(Property::Method(of, name)) {
        Known::Asked => typing.world.kept.settle(Property::Method(of, name), known),
        _ => {}
    }
}

/// Calls a value as a method: nil is one that isn't there.
fn as_method(
    frames: &mut Vec<BodyFrame>,
    typing: &mut Typing,
    budget: &mut Budget,
    value: Value,
    of: TypeId,
    object: Made,
    name: TextId,
    arguments: Rest<TermId>,
    node: Node,
) -> Result<BodyStep, NoMemory>
    ensures means { IfOk result (λ step.
        Goes frames.old.items (models.call_method value of object name arguments node.at node.source node.site)
        typing.old budget.old frames.new.items step typing.new budget.new) }
    ensures kept { OnOk result (KeepsTyping typing.old typing.new) }
{
    if value.is_nil() {
        missing(frames, typing, of, object, name, arguments, node)
    } else {
        let operands = untyped(typing, Some(object), arguments.as_slice())?;
        call_becoming(frames, typing, budget, value, operands, true, node)
    }
}

/// Calls a method that isn't there, for which `__methodmissing` is asked.
fn missing(
    frames: &mut Vec<BodyFrame>,
    typing: &mut Typing,
    of: TypeId,
    object: Made,
    name: TextId,
    arguments: Rest<TermId>,
    node: Node,
) -> Result<BodyStep, NoMemory>
    ensures means { IfOk result (λ step. (left : ℕ) →
        Goes frames.old.items
        (models.missing_method (structs.metamethod typing.old.stage of (codes "__methodmissing")) object name arguments
        node.at node.site)
        typing.old left frames.new.items step typing.new left) }
    ensures kept { OnOk result (KeepsTyping typing.old typing.new) }
{
    let handler = metamethod(&typing.world, of, b"__methodmissing");
    if handler.is_nil() {
        return Ok(refuse(RefusalKind::NoMethod, node.at, node.site));
    }
    let object = new_quote(typing, object)?;
    let operands = untyped(typing, None, arguments.as_slice())?;
    let frame = QuotesFrame {
        handler,
        operands: Rest::from_vec(operands),
        values: two_values(typing, Value::Text(name), object)?,
        at: node.at,
        site: node.site,
    };
    quotes_left(frames, frame)
}
