//! The files that a command names, by number.
ghost use Rattle.std.specs.Prelude.{◌≡◌, ◌<◌, [], length, Some, IfOk, OnOk, OnErr, slice_get};
ghost use Rattle.std.specs.Option.{option_copied};
ghost use Rattle.lk_base.specs.Files.{with_name, AreDifferent};

use crate::memory::NoMemory;
use crate::name::Name;
use indexmap::IndexSet;
use std::alloc::Global;
use std::marker::Model;

/// The names of files, each once. A file's number is the place of its name.
///
/// A contract sees it as the list of the names, in the order in which they were first put.
#[derive(Drop)]
pub struct Files {
    names: IndexSet<Name>,
}

impl Model for Files {
    ghost use Rattle.std.specs.Prelude.{ℕ, List};

    ghost Value = { List (List ℕ) };

    ghost view = { λ files. files.names.keys };
}

impl Files {
    /// No names.
    pub fn new(alloc: Global) -> Files
        ensures { result ≡ [] }
    {
        Files {
            names: IndexSet::new(alloc),
        }
    }

    /// How many names there are.
    pub fn len(&self) -> usize
        ensures value { result ≡ length self.now }
        ensures different { AreDifferent self.now }
    {
        self.names.len()
    }

    /// The number of this name: that of the equal name that is there, or of the name put at the end.
    ///
    /// Where no memory is found the names are as before.
    pub fn put(&mut self, name: Name) -> Result<u32, NoMemory>
        requires { length self.old < 4294967295 }
        ensures number { IfOk result (λ number. slice_get self.new number ≡ Some name) }
        ensures ok { OnOk result (self.new ≡ with_name self.old name) }
        ensures err { OnErr result (self.new ≡ self.old) }
        ensures different { AreDifferent self.new }
    {
        let (number, _added) = self.names.insert_full(name)?;
        Ok(number as u32)
    }

    /// The name of this number, or nothing past the end.
    pub fn get(&self, number: u32) -> Option<&Name>
        ensures { option_copied result ≡ slice_get self.now number }
    {
        self.names.get_index(number as usize)
    }
}
