//! Scopes of local names (Lua 5.1 manual, section 2.6).

use tl_base::NodeId;

/// Where a node stands: the innermost owner of declarations around it, and how many of this owner's declarations are in scope. Around the
/// owner those are in scope that are where the owner stands.
#[derive(Clone, Copy, PartialEq, Eq)]
pub struct Scope {
    pub owner: NodeId,
    pub count: u64,
}

/// The declaration that a use of a local finds: how many owners to go outwards, the position among the owner's declarations, from 0, and
/// the node that makes it, which is the name that is declared, or for an implicit `self` the function.
#[derive(Clone, Copy, PartialEq, Eq)]
pub struct Binder {
    pub depth: u32,
    pub position: u32,
    pub declaration: NodeId,
}
