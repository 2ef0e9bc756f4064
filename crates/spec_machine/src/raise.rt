// Texts and errors.

ghost use Rattle.std.specs.Prelude.{◌≡◌, ◌≤◌, IfOk, OnOk};
ghost use Rattle.tl_tree.specs.Code.{Items};
ghost use Rattle.spec_model.specs.Plans.{error_text, with_text_of, raise};
ghost use Rattle.spec_machine.specs.Keeping.{KeepsStage};
ghost use Rattle.spec_machine.specs.Steps.{Gets, Does};

use crate::reached::SpecStep;
use exotype::{Fault, World};
use lua_ops::placed;
use lua_table::text_units;
use lua_value::Value;
use spec_model::End;
use std::alloc::Global;
use tl_base::{Budget, Bytes, NoMemory, Place, Step, Text, TextId};

/// The text of an error: the place of what raises it, and what it is.
fn error_text(alloc: Global, place: Place, fault: Fault) -> Result<Bytes, NoMemory>
    ensures { IfOk result (λ text. text ≡ error_text place fault) }
{
    let text = fault.text(alloc)?;
    placed(alloc, place, text.as_bytes())
}

/// The text of these bytes. No source makes more of them than texts have.
pub fn text(world: &mut World, bytes: &[u8]) -> Result<TextId, NoMemory>
    ensures means { IfOk result (λ id. Gets (λ go. with_text_of bytes.now go) world.old id world.new) }
    ensures kept { OnOk result (KeepsStage world.old world.new) }
{
    if bytes.len() > Text::MAX_LEN {
        return Ok(TextId(0));
    }
    let id = world.heap.intern(bytes)?;
    Ok(id)
}

/// Raises a fault, with its place before its text, which is paid for.
pub fn raise(
    world: &mut World,
    budget: &mut Budget,
    place: Place,
    fault: Fault,
) -> Result<SpecStep, NoMemory>
    ensures means { IfOk result (λ step. (items : Items) →
        Does items (raise place fault) world.old budget.old step world.new budget.new) }
    ensures kept { OnOk result (KeepsStage world.old world.new) }
{
    let bytes = error_text(world.heap.allocator(), place, fault)?;
    let bytes = bytes.as_slice();
    if !budget.pay(text_units(bytes.len())) {
        return Ok(Step::Spent);
    }
    let id = text(world, bytes)?;
    Ok(Step::Return(End::Raised(Value::Text(id), place)))
}
