// The exports.

ghost use Rattle.std.specs.Prelude.{◌≡◌, OnOk, OnErr};
ghost use Rattle.exotype.specs.World.{no_exports, with_export, with_saved};

use std::alloc::Global;
use std::marker::Model;
use terra_term::Export;
use tl_base::NoMemory;

/// The exports so far, in their order, and whether the program said what it exports.
#[derive(Drop)]
pub struct Exports {
    list: Vec<Export>,
    saved: bool,
}

impl Model for Exports {
    ghost use Rattle.exotype.specs.World.{ExportState};

    ghost Value = { ExportState };

    ghost view = { λ e. record { list = e.list.items; saved = e.saved } };
}

impl Exports {
    /// No exports, of which the program said nothing.
    pub fn new(alloc: Global) -> Exports
        ensures { result ≡ no_exports }
    {
        Exports {
            list: Vec::new(alloc),
            saved: false,
        }
    }

    /// The exports in their order.
    pub fn as_slice(&self) -> &[Export]
        ensures { result.now ≡ self.now.list }
    {
        &self.list
    }

    /// Whether `saveobj` was called.
    pub fn is_saved(&self) -> bool
        ensures { result ≡ self.now.saved }
    {
        self.saved
    }

    /// `saveobj` is called.
    pub fn save(&mut self)
        ensures { self.new ≡ with_saved self.old }
    {
        self.saved = true;
    }

    /// Puts an export behind the others. After `NoMemory` they are as they were.
    pub fn push(&mut self, export: Export) -> Result<(), NoMemory>
        ensures ok { OnOk result (self.new ≡ with_export self.old export) }
        ensures err { OnErr result (self.new ≡ self.old) }
    {
        self.list.push(export)?;
        Ok(())
    }
}
