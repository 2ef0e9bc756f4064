// What the code of a function depends on.

ghost use Rattle.std.specs.Prelude.{◌≡◌, map};
ghost use Rattle.terra_meaning.specs.Frames.{home_at};
ghost use Rattle.terra_eval.specs.Views.{home_of};

use terra_eval::frame::Home;
use terra_term::Store;
use terra_types::Types;
use tl_base::FnId;

/// What the code of a function depends on: the store, the functions that stand as values, and the homes of its declarations.
#[derive(Clone, Copy)]
pub(crate) struct Around<'a> {
    pub(crate) store: &'a Store,
    pub(crate) entries: &'a [FnId],
    pub(crate) homes: &'a [Home],
}

impl<'a> Around<'a> {
    pub(crate) fn types(&self) -> &'a Types
        ensures { result.now ≡ self.now.store.now.types }
    {
        self.store.types()
    }

    /// The home of a declaration; past the last, a value alone.
    pub(crate) fn home(&self, number: u64) -> Home
        ensures { home_of result ≡ home_at (map home_of self.now.homes.now) number }
    {
        match self.homes.get(number as usize) {
            Some(home) => *home,
            None => Home::ByValue,
        }
    }
}
