// Calls of Terra functions by Lua code, in their six steps.

ghost use Rattle.std.specs.Prelude.{◌≡◌, ◌≤◌, List as ListOf, [], ◌∷◌, false, None, Some, IfOk, OnOk, option_map};
ghost use Rattle.tl_base.specs.Layer.{state, given, seen, OnAsk, UnlessAsk};
ghost use Rattle.terra_term.specs.Stores.{Callable, callable_of, contents_of};
ghost use Rattle.check_model.specs.declared.question.CheckAnswer.{CheckAnswer as CheckAnswerOf};
ghost use Rattle.check_library.specs.Counting.{nothing, count_function};
ghost use Rattle.stage_model.specs.Stage.{StagingState};
ghost use Rattle.stage_model.specs.Calls.{answered, called, unless_too_large, with_term, ended, run_at};
ghost use Rattle.stage_loop.specs.Layers.{StagingGiven, Keeps, Follows};
ghost use Rattle.stage_loop.specs.Calls.{calling_rest, CallingFits, WasChecked, WasReadied, MayRun, finished, left_of};

use crate::raising::{give, raise, raise_bad_argument, raise_fault, refuse};
use crate::running::RunEnd;
use crate::words::{Passed, passed_to};
use crate::world::Staging;
use check_library::Counted;
use check_library::exports::place_of_function;
use check_model::CheckAnswer;
use exotype::World;
use lua_value::Values;
use stage_check::{Asked, Job, JobEnd};
use terra_term::RefusalKind;
use tl_base::{Budget, FnId, List, NoMemory, Place, Turn};

/// A call of a Terra function by Lua code, which is to begin, or waits for the check of the function.
#[derive(Drop)]
pub struct Calling {
    function: FnId,
    arguments: Values,
    place: Place,
    waits: bool,
}

impl Calling {
    /// A call with these arguments at a place, which is to begin.
    pub fn new(function: FnId, arguments: Values, place: Place) -> Calling
        ensures { result ≡ record { function = function; arguments = arguments; place = place; waits = false } }
    {
        Calling {
            function,
            arguments,
            place,
            waits: false,
        }
    }

    /// Goes on with an answer, to where it stops next.
    pub fn resume(
        &mut self,
        staging: &mut Staging,
        budget: &mut Budget,
        answer: CheckAnswer,
    ) -> Result<Turn<Asked, JobEnd>, NoMemory>
        requires { CallingFits self.old (given answer staging.old budget.old) }
        ensures turn { IfOk result (λ turn. calling_rest self.old (given answer staging.old budget.old) []
            ≡ seen turn (state staging.new budget.new)) }
        ensures reads_no_more { IfOk result (λ turn. UnlessAsk turn ((later : ListOf StagingGiven) →
            calling_rest self.old (given answer staging.old budget.old) later ≡ seen turn (state staging.new budget.new))) }
        ensures goes_on { IfOk result (λ turn. OnAsk turn (λ _. (next : StagingGiven) (later : ListOf StagingGiven) →
            calling_rest self.old (given answer staging.old budget.old) (next ∷ later) ≡ calling_rest self.new next later)) }
        ensures fits_next { IfOk result (λ turn. OnAsk turn (λ question. (next : StagingGiven) →
            Follows question (state staging.new budget.new) next → CallingFits self.new next)) }
        ensures kept { OnOk result (Keeps staging.old staging.new) }
        ensures paid { OnOk result (budget.new ≤ budget.old) }
    {
        if self.waits {
            go_on(
                self.function,
                &self.arguments,
                self.place,
                staging,
                budget,
                answer,
            )
        } else {
            Ok(self.begin(budget))
        }
    }

    /// Pays for the call, and asks for the check of the function.
    fn begin(&mut self, budget: &mut Budget) -> Turn<Asked, JobEnd>
        ensures turn { (w : StagingState) (answer : CheckAnswerOf) →
            called self.old.function self.old.arguments self.old.place (given answer w budget.old) [] ≡ seen result (state w budget.new) }
        ensures reads_no_more { UnlessAsk result ((w : StagingState) (answer : CheckAnswerOf) (later : ListOf StagingGiven) →
            called self.old.function self.old.arguments self.old.place (given answer w budget.old) later
            ≡ seen result (state w budget.new)) }
        ensures goes_on { OnAsk result (λ _. (w : StagingState) (answer : CheckAnswerOf) (next : StagingGiven) (later : ListOf StagingGiven) →
            called self.old.function self.old.arguments self.old.place (given answer w budget.old) (next ∷ later)
            ≡ calling_rest self.new next later) }
        ensures asks { OnAsk result (λ question. question ≡ Asked.Job (Job.Check self.new.function)) }
        ensures paid { budget.new ≤ budget.old }
    {
        if !budget.pay(1) {
            return Turn::Spent;
        }
        self.waits = true;
        Turn::Ask(Asked::Job(Job::Check(self.function)))
    }
}

/// Goes on behind the check: what is refused is raised as `compile` raises it.
fn go_on(
    f: FnId,
    arguments: &Values,
    place: Place,
    staging: &mut Staging,
    budget: &mut Budget,
    answer: CheckAnswer,
) -> Result<Turn<Asked, JobEnd>, NoMemory>
    requires { WasChecked answer f staging.old.typing.stage }
    ensures turn { IfOk result (λ turn. answered answer f arguments.now place (state staging.old budget.old)
        ≡ seen turn (state staging.new budget.new)) }
    ensures ends { IfOk result (λ turn. OnAsk turn (λ _. ⊥)) }
    ensures kept { OnOk result (Keeps staging.old staging.new) }
    ensures paid { OnOk result (budget.new ≤ budget.old) }
{
    match answer {
        CheckAnswer::Refused(why) => refuse(staging, budget, why.kind, why.place, place),
        CheckAnswer::Go
        | CheckAnswer::Values(_)
        | CheckAnswer::Raise(_, _)
        | CheckAnswer::Result(_)
        | CheckAnswer::Done
        | CheckAnswer::NoLayout(_) => behind_check(f, arguments, place, staging, budget),
    }
}

/// The function that takes the typed nodes of a function with all that it reaches past the most that may be compiled, if one does.
fn passing(world: &World, f: FnId) -> Result<Option<FnId>, NoMemory>
    ensures { IfOk result (λ passing. option_map (λ g. g.0) passing ≡ (count_function world.now nothing f).passing) }
{
    let mut counted = Counted::new(world.store.allocator());
    counted.count_function(world, f)
}

/// Goes on with a function that was checked: what reaches too much is refused at the function itself.
fn behind_check(
    f: FnId,
    arguments: &Values,
    place: Place,
    staging: &mut Staging,
    budget: &mut Budget,
) -> Result<Turn<Asked, JobEnd>, NoMemory>
    requires { WasReadied f staging.old.typing.stage }
    ensures turn { IfOk result (λ turn. unless_too_large (count_function staging.old.typing.stage nothing f).passing f arguments.now place
        (state staging.old budget.old) ≡ seen turn (state staging.new budget.new)) }
    ensures ends { IfOk result (λ turn. OnAsk turn (λ _. ⊥)) }
    ensures kept { OnOk result (Keeps staging.old staging.new) }
    ensures paid { OnOk result (budget.new ≤ budget.old) }
{
    match passing(staging.world(), f)? {
        None => call(f, arguments, place, staging, budget),
        Some(_) => {
            let own = place_of_function(staging.world(), f);
            refuse(staging, budget, RefusalKind::TooLarge, own, place)
        }
    }
}

/// Calls a function that was checked and isn't too large, if Lua code may call it with these arguments.
fn call(
    f: FnId,
    arguments: &Values,
    place: Place,
    staging: &mut Staging,
    budget: &mut Budget,
) -> Result<Turn<Asked, JobEnd>, NoMemory>
    requires ready { WasReadied f staging.old.typing.stage }
    requires few { (count_function staging.old.typing.stage nothing f).passing ≡ None }
    ensures turn { IfOk result (λ turn.
        with_term (callable_of (contents_of staging.old.typing.stage.store) f) f arguments.now place (state staging.old budget.old)
        ≡ seen turn (state staging.new budget.new)) }
    ensures ends { IfOk result (λ turn. OnAsk turn (λ _. ⊥)) }
    ensures kept { OnOk result (Keeps staging.old staging.new) }
    ensures paid { OnOk result (budget.new ≤ budget.old) }
{
    match passed_to(staging.world(), f, arguments)? {
        Passed::NotCallable => raise(staging, budget, place, b"not callable from Lua"),
        Passed::Bad(position) => raise_bad_argument(staging, budget, place, position),
        Passed::Words(words) => run(f, &words, place, staging, budget),
    }
}

/// Runs a function on words with the units that are left, and pays for each count.
fn run(
    f: FnId,
    words: &List<u64>,
    place: Place,
    staging: &mut Staging,
    budget: &mut Budget,
) -> Result<Turn<Asked, JobEnd>, NoMemory>
    requires { MayRun staging.old.typing.stage f words.now }
    ensures turn { IfOk result (λ turn. (k : Callable) → callable_of (contents_of staging.old.typing.stage.store) f ≡ Some k →
        ended k.body f words.now place (run_at staging.old.typing.stage f words.now budget.old) (state staging.old budget.old)
        ≡ seen turn (state staging.new budget.new)) }
    ensures ends { IfOk result (λ turn. OnAsk turn (λ _. ⊥)) }
    ensures kept { OnOk result (Keeps staging.old staging.new) }
    ensures paid { OnOk result (budget.new ≤ budget.old) }
{
    let end = staging.run(f, words, budget.left())?;
    finish(staging, budget, place, end)
}

/// Ends a call as its run ended, with the units that the run left.
fn finish(
    staging: &mut Staging,
    budget: &mut Budget,
    place: Place,
    end: RunEnd,
) -> Result<Turn<Asked, JobEnd>, NoMemory>
    requires { left_of end ≤ budget.old }
    ensures turn { IfOk result (λ turn. finished end place staging.old ≡ seen turn (state staging.new budget.new)) }
    ensures ends { IfOk result (λ turn. OnAsk turn (λ _. ⊥)) }
    ensures kept { OnOk result (Keeps staging.old staging.new) }
    ensures paid { OnOk result (budget.new ≤ budget.old) }
{
    match end {
        RunEnd::Returned(values, left) => {
            spend_to(budget, left);
            give(staging, budget, place, values)
        }
        RunEnd::Fault(kind, own, left) => {
            spend_to(budget, left);
            raise_fault(staging, budget, place, kind, own)
        }
        RunEnd::Broken => {
            spend_to(budget, 0);
            Ok(Turn::Spent)
        }
    }
}

/// Pays all but so many units.
fn spend_to(budget: &mut Budget, left: u64)
    requires { left ≤ budget.old }
    ensures { budget.new ≡ left }
{
    let units = budget.left() - left;
    budget.pay(units);
}
