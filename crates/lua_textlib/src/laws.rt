// What the definitions of the functions on tables mean together. Each function changes nothing, and its clauses are laws. They are about a
// table of the heap.

ghost use Rattle.std.specs.Prelude.{◌≡◌, ◌<◌, ◌+◌, ℕ, ℤ, pos, ◌+ℤ◌, ◌<ℤ◌, length};
ghost use Rattle.tl_base.specs.declared.ids.TableId.{TableId};
ghost use Rattle.lua_value.specs.declared.value.Value.{Value};
ghost use Rattle.lua_value.specs.declared.value.Value.TheVariants as values;
ghost use Rattle.lua_table.specs.LuaState.{LuaState};
ghost use Rattle.lua_textlib.specs.Tables.{held, with_held, shifted_up, shifted_down};

/// Where a value is put under z behind a shift of n values, it stands there, each of the n values from z on stands one number higher, and
/// the values below z and above z + n are as they were.
pub fn values_make_way()
    ensures there { (s : LuaState) (t : TableId) (z : ℤ) (n : ℕ) (v : Value) → t.0 < length s.tables →
        held (with_held (shifted_up s t z n) t z v) t z ≡ v }
    ensures moved { (s : LuaState) (t : TableId) (z : ℤ) (n : ℕ) (v : Value) (i : ℕ) → t.0 < length s.tables → i < n →
        held (with_held (shifted_up s t z n) t z v) t (z +ℤ pos (i + 1)) ≡ held s t (z +ℤ pos i) }
    ensures before { (s : LuaState) (t : TableId) (z : ℤ) (n : ℕ) (v : Value) (k : ℤ) → t.0 < length s.tables → k <ℤ z →
        held (with_held (shifted_up s t z n) t z v) t k ≡ held s t k }
    ensures behind { (s : LuaState) (t : TableId) (z : ℤ) (n : ℕ) (v : Value) (k : ℤ) → t.0 < length s.tables → (z +ℤ pos n) <ℤ k →
        held (with_held (shifted_up s t z n) t z v) t k ≡ held s t k }
{}

/// Where the value under z is taken out, behind which n values stand, each of these stands one number lower, nothing stands at the end
/// z + n, and the values below z and above z + n are as they were.
pub fn values_close_up()
    ensures moved { (s : LuaState) (t : TableId) (z : ℤ) (n : ℕ) (i : ℕ) → t.0 < length s.tables → i < n →
        held (with_held (shifted_down s t z n) t (z +ℤ pos n) values.Nil) t (z +ℤ pos i) ≡ held s t (z +ℤ pos (i + 1)) }
    ensures end { (s : LuaState) (t : TableId) (z : ℤ) (n : ℕ) → t.0 < length s.tables →
        held (with_held (shifted_down s t z n) t (z +ℤ pos n) values.Nil) t (z +ℤ pos n) ≡ values.Nil }
    ensures before { (s : LuaState) (t : TableId) (z : ℤ) (n : ℕ) (k : ℤ) → t.0 < length s.tables → k <ℤ z →
        held (with_held (shifted_down s t z n) t (z +ℤ pos n) values.Nil) t k ≡ held s t k }
    ensures behind { (s : LuaState) (t : TableId) (z : ℤ) (n : ℕ) (k : ℤ) → t.0 < length s.tables → (z +ℤ pos n) <ℤ k →
        held (with_held (shifted_down s t z n) t (z +ℤ pos n) values.Nil) t k ≡ held s t k }
{}
