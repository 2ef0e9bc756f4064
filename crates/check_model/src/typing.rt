// What bodies are typed in.

ghost use Rattle.std.specs.Prelude.{◌≡◌, [], length, Option, None, OnOk};
ghost use Rattle.check_model.specs.Typing.{variable_at, found_in, with_variable, cut_to};

use exotype::World;
use std::alloc::Global;
use std::marker::Model;
use terra_term::TypedName;
use tl_base::{NoMemory, SymId, TypeId};

/// What bodies are typed in: the world of the staging, and the variables that are in scope in the bodies being typed, the innermost
/// last. A body that is typed for another one puts its own behind the other's.
#[derive(Drop)]
pub struct Typing {
    pub world: World,
    variables: Vec<TypedName>,
}

impl Model for Typing {
    ghost use Rattle.check_model.specs.Typing.{TypingState};

    ghost Value = { TypingState };

    ghost view = { λ t. record { stage = t.world; variables = t.variables.items } };
}

impl Typing {
    /// A world in which no variable is in scope.
    pub fn new(alloc: Global, world: World) -> Typing
        ensures { result ≡ record { stage = world; variables = [] } }
    {
        Typing {
            world,
            variables: Vec::new(alloc),
        }
    }

    /// How many variables there are.
    pub fn count(&self) -> u64
        ensures { result ≡ length self.now.variables }
    {
        self.variables.len() as u64
    }

    /// The type of a symbol whose declaration is in scope, where so many variables stand before those of the body.
    pub fn variable(&self, base: u64, symbol: SymId) -> Option<TypeId>
        ensures { result ≡ variable_at self.now base symbol }
    {
        match self.variables.get(base as usize..) {
            Some(own) => last_of(own, symbol),
            None => None,
        }
    }

    /// A variable is in scope from now on. After `NoMemory` nothing is changed.
    pub fn declare(&mut self, name: TypedName) -> Result<(), NoMemory>
        ensures { OnOk result (self.new ≡ with_variable self.old name.symbol name.of) }
    {
        self.variables.push(name)?;
        Ok(())
    }

    /// Leaves a scope, before which there were so many variables.
    pub fn leave(&mut self, count: u64)
        ensures { self.new ≡ cut_to self.old count }
    {
        self.variables.truncate(count as usize);
    }
}

/// The type of the last variable with a symbol.
fn last_of(variables: &[TypedName], symbol: SymId) -> Option<TypeId>
    ensures { result ≡ found_in symbol variables.now None }
{
    let mut found = None;
    'variables: for name in variables {
        if symbol.0 == name.symbol.0 {
            found = Some(name.of);
        }
    }
    found
}
