// What waits in a layout.

use check_model::Rest;
use lua_value::Value;
use terra_types::Entry;
use tl_base::{List, Place, TypeId};

/// What waits for Lua, or for the layout of another type.
#[derive(Drop)]
pub enum LayoutFrame {
    /// A struct whose entries Lua gives: its type, and who asked.
    Asked(TypeId, Place),
    /// A struct, at one of its entries: its type, the value that has the entries, those behind the one, all of them, and who asked.
    Part(TypeId, Value, Rest<Entry>, List<Entry>, Place),
    /// An array.
    Elements(TypeId),
}
