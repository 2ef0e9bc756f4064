// Calls of functions of the library, as a layer of the stage.

ghost use Rattle.std.specs.Prelude.{◌≡◌, ◌≤◌, List, [], ◌∷◌, IfOk, OnOk, None};
ghost use Rattle.tl_base.specs.Layer.{State, state, Given, given, seen, OnAsk, UnlessAsk};
ghost use Rattle.exotype.specs.World.{StageState};
ghost use Rattle.lua_base.specs.Basic as basic;
ghost use Rattle.lua_textlib.specs.Calls as textlib;
ghost use Rattle.terra_lib.specs.Answers.{turned, on_heap};
ghost use Rattle.terra_lib.specs.Calls as terra;
ghost use Rattle.stage_library.specs.Keeping.{KeepsStaging};
ghost use Rattle.stage_library.specs.Library.{is_terra, library_called, library_backed, library_turned, turn_seen, library_seen};
ghost use Rattle.stage_library.specs.Library.{is_on_texts_or_tables, back_of, is_of_terra, library_rest};

use crate::tasks::Task;
use exotype::World;
use lua_model::{LuaAnswer, LuaEnd, LuaJob};
use lua_table::{Back, Heap, LibCall, LibNext, LibTurn};
use lua_value::{LibFn, Values};
use tl_base::{Budget, NoMemory, Turn};

/// A call of a function of the library, which is to begin, or waits for what it called back or asked for.
#[derive(Drop)]
pub struct Library {
    call: LibCall,
    waiting: Option<LibNext>,
}

impl Library {
    /// A call that is to begin.
    pub fn new(call: LibCall) -> Library
        ensures call { result.call ≡ call }
        ensures begins { result.waiting ≡ None }
    {
        Library {
            call,
            waiting: None,
        }
    }

    /// Goes on with an answer, to where it stops next: its end, a payment above what is left, a call of its own, or a question for the
    /// text of a type, at the place of the call of the function.
    pub fn resume(
        &mut self,
        world: &mut World,
        budget: &mut Budget,
        answer: LuaAnswer,
    ) -> Result<Turn<Task, LuaEnd>, NoMemory>
        ensures turn { IfOk result (λ turn.
            library_rest self.old (given answer world.old budget.old) [] ≡ seen turn (state world.new budget.new)) }
        ensures reads_no_more { IfOk result (λ turn. UnlessAsk turn ((later : List (Given StageState LuaAnswer)) →
            library_rest self.old (given answer world.old budget.old) later ≡ seen turn (state world.new budget.new))) }
        ensures goes_on { IfOk result (λ turn. OnAsk turn (λ _.
            (next : Given StageState LuaAnswer) (later : List (Given StageState LuaAnswer)) →
            library_rest self.old (given answer world.old budget.old) (next ∷ later) ≡ library_rest self.new next later)) }
        ensures kept { OnOk result (KeepsStaging world.old world.new) }
        ensures paid { OnOk result (budget.new ≤ budget.old) }
    {
        let turn = self.go_on(world, budget, answer)?;
        Ok(self.show(turn))
    }

    /// Begins, or goes on with an answer.
    fn go_on(
        &mut self,
        world: &mut World,
        budget: &mut Budget,
        answer: LuaAnswer,
    ) -> Result<LibTurn, NoMemory>
        ensures does { IfOk result (λ turn. turned turn (state world.new budget.new)
            ≡ library_turned self.old.call self.old.waiting (given answer world.old budget.old)) }
        ensures call { self.new.call ≡ self.old.call }
        ensures kept { OnOk result (KeepsStaging world.old world.new) }
        ensures paid { OnOk result (budget.new ≤ budget.old) }
    {
        match self.waiting.take() {
            Some(next) => back(world, next, answer, budget),
            None => call(world, &self.call, budget),
        }
    }

    /// What shows of what a function comes to. Where it calls back or asks, it waits for that.
    fn show(&mut self, turn: LibTurn) -> Turn<Task, LuaEnd>
        ensures seen { (s : State StageState) → seen result s ≡ turn_seen self.old.call.place turn s }
        ensures reads_no_more { UnlessAsk result ((s : State StageState) (later : List (Given StageState LuaAnswer)) →
            library_seen self.old.call.place later turn s ≡ seen result s) }
        ensures goes_on { OnAsk result (λ _. (s : State StageState)
            (next : Given StageState LuaAnswer) (later : List (Given StageState LuaAnswer)) →
            library_seen self.old.call.place (next ∷ later) turn s ≡ library_rest self.new next later) }
    {
        match turn {
            LibTurn::Values(values) => Turn::End(LuaEnd::Done(values)),
            LibTurn::Raise(value, place) => Turn::End(LuaEnd::Raised(value, place)),
            LibTurn::Spent => Turn::Spent,
            LibTurn::CallBack {
                function,
                args,
                next,
            } => {
                self.waiting = Some(next);
                Turn::Ask(Task::Evaluate(LuaJob::Call(function, args, self.call.place)))
            }
            LibTurn::TypeText { of, next } => {
                self.waiting = Some(next);
                Turn::Ask(Task::TypeText(of, self.call.place))
            }
        }
    }
}

/// Tells whether a function is one of Terra's library, or one that the language itself calls for Terra code.
fn is_terra(function: LibFn) -> bool
    ensures { result ≡ is_terra function }
{
    match function {
        LibFn::Symbol
        | LibFn::Macro
        | LibFn::Global
        | LibFn::Constant
        | LibFn::SizeOf
        | LibFn::OffsetOf
        | LibFn::NewList
        | LibFn::Insert
        | LibFn::InsertAll
        | LibFn::Map
        | LibFn::NewStruct
        | LibFn::Pointer
        | LibFn::Array
        | LibFn::SaveObj
        | LibFn::Compile
        | LibFn::IsDefined
        | LibFn::GetType
        | LibFn::IsIntegral
        | LibFn::IsLogical
        | LibFn::IsPointer
        | LibFn::IsArray
        | LibFn::IsStruct
        | LibFn::Field
        | LibFn::PointerType
        | LibFn::ArrayType
        | LibFn::FunctionType => true,
        _ => false,
    }
}

/// Tells whether a function is one on texts or on tables.
fn is_on_texts_or_tables(function: LibFn) -> bool
    ensures { result ≡ is_on_texts_or_tables function }
{
    match function {
        LibFn::Byte
        | LibFn::Char
        | LibFn::Format
        | LibFn::Len
        | LibFn::Rep
        | LibFn::Sub
        | LibFn::Concat
        | LibFn::TableInsert
        | LibFn::Remove => true,
        _ => false,
    }
}

/// Calls a function of the library.
fn call(world: &mut World, asked: &LibCall, budget: &mut Budget) -> Result<LibTurn, NoMemory>
    ensures does { IfOk result (λ turn.
        turned turn (state world.new budget.new) ≡ library_called (state world.old budget.old) asked.now) }
    ensures kept { OnOk result (KeepsStaging world.old world.new) }
    ensures paid { OnOk result (budget.new ≤ budget.old) }
{
    if is_terra(asked.function) {
        return call_terra(world, asked, budget);
    }
    if is_on_texts_or_tables(asked.function) {
        return call_on_texts(world, asked, budget);
    }
    call_basic(world, asked, budget)
}

/// Calls a function of Terra's library.
fn call_terra(world: &mut World, asked: &LibCall, budget: &mut Budget) -> Result<LibTurn, NoMemory>
    ensures does { IfOk result (λ turn.
        turned turn (state world.new budget.new) ≡ terra.called (state world.old budget.old) asked.now) }
    ensures kept { OnOk result (KeepsStaging world.old world.new) }
    ensures paid { OnOk result (budget.new ≤ budget.old) }
{
    terra_lib::call(world, asked, budget)
}

/// Calls a function on texts or on tables.
fn call_on_texts(
    world: &mut World,
    asked: &LibCall,
    budget: &mut Budget,
) -> Result<LibTurn, NoMemory>
    ensures does { IfOk result (λ turn. turned turn (state world.new budget.new)
        ≡ on_heap (state world.old budget.old) (λ h. textlib.called h asked.now)) }
    ensures kept { OnOk result (KeepsStaging world.old world.new) }
    ensures paid { OnOk result (budget.new ≤ budget.old) }
{
    lua_textlib::call(&mut world.heap, asked, budget)
}

/// Calls a basic function of Lua.
fn call_basic(world: &mut World, asked: &LibCall, budget: &mut Budget) -> Result<LibTurn, NoMemory>
    ensures does { IfOk result (λ turn. turned turn (state world.new budget.new)
        ≡ on_heap (state world.old budget.old) (λ h. basic.called h asked.now)) }
    ensures kept { OnOk result (KeepsStaging world.old world.new) }
    ensures paid { OnOk result (budget.new ≤ budget.old) }
{
    lua_base::call(&mut world.heap, asked, budget)
}

/// Goes on with a function that called back or asked, with what that came to.
fn back(
    world: &mut World,
    next: LibNext,
    answer: LuaAnswer,
    budget: &mut Budget,
) -> Result<LibTurn, NoMemory>
    ensures does { IfOk result (λ turn. turned turn (state world.new budget.new)
        ≡ library_backed (state world.old budget.old) next (back_of answer)) }
    ensures kept { OnOk result (KeepsStaging world.old world.new) }
    ensures paid { OnOk result (budget.new ≤ budget.old) }
{
    let answer = back_of(&world.heap, answer);
    if is_of_terra(&next) {
        return back_terra(world, next, answer, budget);
    }
    back_basic(world, next, answer, budget)
}

/// Tells whether what waits is a function of Terra's library.
fn is_of_terra(next: &LibNext) -> bool
    ensures { result ≡ is_of_terra next.now }
{
    match next {
        LibNext::Map { .. } => true,
        LibNext::Pcall => false,
        LibNext::ToString => false,
        LibNext::Print { .. } => false,
    }
}

/// Goes on with a function of Terra's library.
fn back_terra(
    world: &mut World,
    next: LibNext,
    answer: Back,
    budget: &mut Budget,
) -> Result<LibTurn, NoMemory>
    ensures does { IfOk result (λ turn. turned turn (state world.new budget.new)
        ≡ terra.backed (state world.old budget.old) next answer) }
    ensures kept { OnOk result (KeepsStaging world.old world.new) }
    ensures paid { OnOk result (budget.new ≤ budget.old) }
{
    terra_lib::back(world, next, answer, budget)
}

/// Goes on with a basic function of Lua.
fn back_basic(
    world: &mut World,
    next: LibNext,
    answer: Back,
    budget: &mut Budget,
) -> Result<LibTurn, NoMemory>
    ensures does { IfOk result (λ turn. turned turn (state world.new budget.new)
        ≡ on_heap (state world.old budget.old) (λ h. basic.backed h next answer)) }
    ensures kept { OnOk result (KeepsStaging world.old world.new) }
    ensures paid { OnOk result (budget.new ≤ budget.old) }
{
    lua_base::back(&mut world.heap, next, answer, budget)
}

/// What a function is answered.
fn back_of(heap: &Heap, answer: LuaAnswer) -> Back
    ensures { result ≡ back_of answer }
{
    match answer {
        LuaAnswer::Go => Back::Values(Values::new(heap.allocator())),
        LuaAnswer::Values(values) => Back::Values(values),
        LuaAnswer::Raise(value, place) => Back::Raised(value, place),
    }
}
