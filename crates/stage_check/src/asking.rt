// Functions of the library that ask for checks or for a layout, and the exports at the end of the chunk, as layers.

ghost use Rattle.std.specs.Prelude.{◌≡◌, ◌≤◌, List, [], ◌∷◌, IfOk, OnOk, None};
ghost use Rattle.tl_base.specs.Layer.{State, state, Given, given, seen, OnAsk, UnlessAsk};
ghost use Rattle.exotype.specs.World.{StageState};
ghost use Rattle.stage_library.specs.Keeping.{KeepsStaging};
ghost use Rattle.check_library.specs.Answers.{asked};
ghost use Rattle.check_library.specs.Calls.{backed};
ghost use Rattle.stage_check.specs.Asking.{asking_turned, asking_rest, asking_seen, end_seen, turn_seen, begun, place_of};

use crate::jobs::{Job, JobEnd};
use check_library::{AskNext, AskTurn};
use check_model::CheckAnswer;
use exotype::World;
use lua_table::{Heap, LibCall, LibTurn};
use lua_value::Values;
use tl_base::{Budget, NoMemory, Place, Turn};

/// What asks.
#[derive(Drop)]
pub enum Asker {
    /// A call of a function of the library that asks.
    Call(LibCall),
    /// The exports at the end of the chunk, at the place of the end of the text.
    Export(Place),
}

/// What asks, which is to begin, or waits for what it asked for.
#[derive(Drop)]
pub struct Asking {
    what: Asker,
    waiting: Option<AskNext>,
}

impl Asking {
    /// What is to begin.
    pub fn new(what: Asker) -> Asking
        ensures what { result.what ≡ what }
        ensures begins { result.waiting ≡ None }
    {
        Asking {
            what,
            waiting: None,
        }
    }

    /// Goes on with an answer, to where it stops next: its end, a payment above what is left, or a question.
    pub fn resume(
        &mut self,
        world: &mut World,
        budget: &mut Budget,
        answer: CheckAnswer,
    ) -> Result<Turn<Job, JobEnd>, NoMemory>
        ensures turn { IfOk result (λ turn.
            asking_rest self.old (given answer world.old budget.old) [] ≡ seen turn (state world.new budget.new)) }
        ensures reads_no_more { IfOk result (λ turn. UnlessAsk turn ((later : List (Given StageState CheckAnswer)) →
            asking_rest self.old (given answer world.old budget.old) later ≡ seen turn (state world.new budget.new))) }
        ensures goes_on { IfOk result (λ turn. OnAsk turn (λ _.
            (next : Given StageState CheckAnswer) (later : List (Given StageState CheckAnswer)) →
            asking_rest self.old (given answer world.old budget.old) (next ∷ later) ≡ asking_rest self.new next later)) }
        ensures kept { OnOk result (KeepsStaging world.old world.new) }
        ensures paid { OnOk result (budget.new ≤ budget.old) }
    {
        let turn = self.go_on(world, budget, answer)?;
        Ok(self.show(&world.heap, turn))
    }

    /// Begins, or goes on with an answer.
    fn go_on(
        &mut self,
        world: &mut World,
        budget: &mut Budget,
        answer: CheckAnswer,
    ) -> Result<AskTurn, NoMemory>
        ensures does { IfOk result (λ turn. asked turn (state world.new budget.new)
            ≡ asking_turned self.old.what self.old.waiting (given answer world.old budget.old)) }
        ensures what { self.new.what ≡ self.old.what }
        ensures kept { OnOk result (KeepsStaging world.old world.new) }
        ensures paid { OnOk result (budget.new ≤ budget.old) }
    {
        match self.waiting.take() {
            Some(next) => back(world, next, answer, self.place(), budget),
            None => begin(world, &self.what, budget),
        }
    }

    /// The place at which it asks.
    fn place(&self) -> Place
        ensures { result ≡ place_of self.now.what }
    {
        match &self.what {
            Asker::Call(call) => call.place,
            Asker::Export(place) => *place,
        }
    }

    /// What shows of what it comes to. Where it asks, it waits for that.
    fn show(&mut self, heap: &Heap, turn: AskTurn) -> Turn<Job, JobEnd>
        ensures seen { (s : State StageState) → seen result s ≡ turn_seen (place_of self.old.what) turn s }
        ensures reads_no_more { UnlessAsk result ((s : State StageState) (later : List (Given StageState CheckAnswer)) →
            asking_seen (place_of self.old.what) later turn s ≡ seen result s) }
        ensures goes_on { OnAsk result (λ _. (s : State StageState)
            (next : Given StageState CheckAnswer) (later : List (Given StageState CheckAnswer)) →
            asking_seen (place_of self.old.what) (next ∷ later) turn s ≡ asking_rest self.new next later) }
    {
        match turn {
            AskTurn::Turn(turn) => end_of(heap, turn),
            AskTurn::Check { function, next } => {
                self.waiting = Some(next);
                Turn::Ask(Job::Check(function))
            }
            AskTurn::Layout { of, next } => {
                self.waiting = Some(next);
                Turn::Ask(Job::Layout(of, self.place()))
            }
        }
    }
}

/// What shows of an end.
pub fn end_of(heap: &Heap, turn: LibTurn) -> Turn<Job, JobEnd>
    ensures seen { (s : State StageState) → seen result s ≡ end_seen turn s }
    ensures ends { OnAsk result (λ _. ⊥) }
{
    match turn {
        LibTurn::Values(values) => Turn::End(JobEnd::Values(values)),
        LibTurn::Raise(value, place) => Turn::End(JobEnd::Raised(value, place)),
        LibTurn::Spent => Turn::Spent,
        // A function that asks neither calls a function of Lua nor asks for a text.
        _ => Turn::End(JobEnd::Values(Values::new(heap.allocator()))),
    }
}

/// Begins what asks.
fn begin(world: &mut World, what: &Asker, budget: &mut Budget) -> Result<AskTurn, NoMemory>
    ensures does { IfOk result (λ turn.
        asked turn (state world.new budget.new) ≡ begun what.now (state world.old budget.old)) }
    ensures kept { OnOk result (KeepsStaging world.old world.new) }
    ensures paid { OnOk result (budget.new ≤ budget.old) }
{
    match what {
        Asker::Call(call) => check_library::call(world, call, budget),
        Asker::Export(place) => check_library::end_of_chunk(world, budget, *place),
    }
}

/// Goes on with an answer.
fn back(
    world: &mut World,
    next: AskNext,
    answer: CheckAnswer,
    place: Place,
    budget: &mut Budget,
) -> Result<AskTurn, NoMemory>
    ensures does { IfOk result (λ turn. asked turn (state world.new budget.new)
        ≡ backed (state world.old budget.old) next answer place) }
    ensures kept { OnOk result (KeepsStaging world.old world.new) }
    ensures paid { OnOk result (budget.new ≤ budget.old) }
{
    check_library::back(world, next, answer, place, budget)
}
