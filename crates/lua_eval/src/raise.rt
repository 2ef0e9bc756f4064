// Texts and errors.

ghost use Rattle.std.specs.Prelude.{◌≡◌, ◌≤◌, IfOk, OnOk};
ghost use Rattle.tl_tree.specs.Code.{Items};
ghost use Rattle.lua_table.specs.Keeping.{KeepsHeap};
ghost use Rattle.lua_model.specs.Plans.{error_text, raise};
ghost use Rattle.lua_eval.specs.Steps.{Does};
ghost use Rattle.lua_eval.specs.Texts.{text_value, text_state};

use lua_model::{End, Job, LuaQuestion};
use lua_ops::{Fault, placed};
use lua_table::{Heap, text_units};
use lua_value::Value;
use tl_base::{Budget, Bytes, NoMemory, Place, Step, Text};

/// What the machine does next.
pub type LuaStep = Step<Job, End, LuaQuestion>;

/// The text of an error: the place of what raises it, and what it is.
fn error_text(heap: &Heap, place: Place, fault: Fault) -> Result<Bytes, NoMemory>
    ensures { IfOk result (λ text. text ≡ error_text place fault) }
{
    let text = fault.text(heap.allocator())?;
    placed(heap.allocator(), place, text.as_bytes())
}

/// The text of these bytes, and nil where they are more than texts have.
pub fn text_value(heap: &mut Heap, bytes: &[u8]) -> Result<Value, NoMemory>
    ensures value { IfOk result (λ value. value ≡ text_value heap.old bytes.now) }
    ensures heap { OnOk result (heap.new ≡ text_state heap.old bytes.now) }
    ensures kept { OnOk result (KeepsHeap heap.old heap.new) }
{
    if bytes.len() > Text::MAX_LEN {
        return Ok(Value::Nil);
    }
    let id = heap.intern(bytes)?;
    Ok(Value::Text(id))
}

/// Raises a fault, with its place before its text, which is paid for.
pub fn raise(
    heap: &mut Heap,
    budget: &mut Budget,
    place: Place,
    fault: Fault,
) -> Result<LuaStep, NoMemory>
    ensures means { IfOk result (λ step. (items : Items) →
        Does items (raise place fault) heap.old budget.old step heap.new budget.new) }
    ensures kept { OnOk result (KeepsHeap heap.old heap.new) }
{
    let text = error_text(heap, place, fault)?;
    let bytes = text.as_slice();
    if !budget.pay(text_units(bytes.len())) {
        return Ok(Step::Spent);
    }
    let value = text_value(heap, bytes)?;
    Ok(Step::Return(End::Raised(value, place)))
}
