// What the definitions mean together. The function changes nothing, and its clauses are laws.

ghost use Rattle.std.specs.Prelude.{ℕ, List, Option};
ghost use Rattle.tl_base.specs.declared.ids.NodeId.{NodeId};
ghost use Rattle.tl_base.specs.declared.ids.TableId.{TableId};
ghost use Rattle.tl_base.specs.declared.ids.CellId.{CellId};
ghost use Rattle.tl_base.specs.declared.ids.EnvId.{EnvId};
ghost use Rattle.tl_base.specs.declared.ids.ClosureId.{ClosureId};
ghost use Rattle.lua_value.specs.declared.value.Value.{Value};
ghost use Rattle.lua_table.specs.declared.env.Closure.{Closure};
ghost use Rattle.lua_table.specs.LuaState.{LuaState};
ghost use Rattle.lua_table.specs.Heap.{with_table, with_stored, with_metatable, with_cell, with_set, with_env, with_declared, with_closure};
ghost use Rattle.lua_table.specs.Heap.{with_macro, with_text, with_printed, deeper, shallower};
ghost use Rattle.lua_table.specs.Keeping.{KeepsHeap};

/// Whatever a heap's calls make of it, texts, functions, macros and what was printed are fronts of what comes later, environments keep
/// their owners and outer environments, and no list shrinks.
pub fn heaps_keep_what_they_have()
    ensures table { (s : LuaState) → KeepsHeap s (with_table s) }
    ensures stored { (s : LuaState) (id : TableId) (key value : Value) → KeepsHeap s (with_stored s id key value) }
    ensures metatable { (s : LuaState) (id : TableId) (metatable : Option TableId) → KeepsHeap s (with_metatable s id metatable) }
    ensures cell { (s : LuaState) (value : Value) → KeepsHeap s (with_cell s value) }
    ensures set { (s : LuaState) (id : CellId) (value : Value) → KeepsHeap s (with_set s id value) }
    ensures env { (s : LuaState) (block : NodeId) (outer : Option EnvId) → KeepsHeap s (with_env s block outer) }
    ensures declared { (s : LuaState) (env : EnvId) (cell : CellId) → KeepsHeap s (with_declared s env cell) }
    ensures closure { (s : LuaState) (closure : Closure) → KeepsHeap s (with_closure s closure) }
    ensures macros { (s : LuaState) (function : ClosureId) → KeepsHeap s (with_macro s function) }
    ensures text { (s : LuaState) (bytes : List ℕ) → KeepsHeap s (with_text s bytes) }
    ensures printed { (s : LuaState) (bytes : List ℕ) → KeepsHeap s (with_printed s bytes) }
    ensures deeper { (s : LuaState) → KeepsHeap s (deeper s) }
    ensures shallower { (s : LuaState) → KeepsHeap s (shallower s) }
    ensures itself { (s : LuaState) → KeepsHeap s s }
    ensures chain { (a b c : LuaState) → KeepsHeap a b → KeepsHeap b c → KeepsHeap a c }
{}
