// The evaluation of Lua code, as a layer.

ghost use Rattle.std.specs.Prelude.{◌≡◌, List, false};
ghost use Rattle.tl_tree.specs.Arena.{items_of};
ghost use Rattle.lua_table.specs.Keeping.{KeepsHeap};
ghost use Rattle.lua_model.specs.Meaning.{lua, LuaGiven};
ghost use Rattle.lua_eval.specs.Slots.{ArePaths};

use crate::machine::Steps;
use lua_model::{LuaAnswer, LuaEnd, LuaJob, LuaQuestion};
use lua_table::Heap;
use std::alloc::Global;
use tl_base::{Budget, Layer, NoMemory, Suspended, Turn};
use tl_rename::Slots;
use tl_tree::Tree;

/// The evaluation of Lua code, which suspends itself to ask for what Terra code and the functions of the library do.
#[derive(Drop)]
pub struct Lua<'a> {
    machine: Suspended<Steps<'a>>,
}

impl<'a> Lua<'a> {
    ghost use Rattle.lua_eval.specs.Rest.{lua_rest, LuaFits};

    /// What is to do a job, and is to begin with `Go`. The slots are those that `tl_rename::resolve` gives for the
    /// tree.
    ///
    /// - `means`: what remains of it is what `lua_model` says that the job means.
    /// - `fits`: `Go` is what it begins with.
    pub fn start(alloc: Global, tree: &'a Tree<'a>, slots: &'a Slots, job: LuaJob) -> Lua<'a>
        requires { ArePaths (items_of tree.now) slots.now }
        ensures means { (first : LuaGiven) (later : List LuaGiven) →
            lua_rest result first later ≡ lua (items_of tree.now) job first later }
        ensures fits { (first : LuaGiven) → first.answer ≡ LuaAnswer.Go → LuaFits result first }
    {
        Lua {
            machine: Suspended::start(alloc, Steps::new(alloc, tree, slots), job),
        }
    }
}

impl Layer for Lua<'_> {
    ghost use Rattle.lua_eval.specs.Frames.{is_go};
    ghost use Rattle.lua_eval.specs.Rest.{lua_rest, LuaFits};

    type World = Heap;

    type Question = LuaQuestion;

    type Answer = LuaAnswer;

    type End = LuaEnd;

    ghost rest = { lua_rest };

    ghost fits = { LuaFits };

    ghost follows = { λ question s next. is_go next.answer ≡ false };

    ghost keeps = { KeepsHeap };

    fn resume(
        &mut self,
        heap: &mut Heap,
        budget: &mut Budget,
        answer: LuaAnswer,
    ) -> Result<Turn<LuaQuestion, LuaEnd>, NoMemory> {
        self.machine.resume(heap, budget, answer)
    }
}
