//! Numbers at names, of which the least is kept.
ghost use Rattle.std.specs.Prelude.{◌≡◌, [], OnOk, IfOk};
ghost use Rattle.lk_link.specs.Absent.{AreListed, IsNoted, IsNumberPut, number_at};

use indexmap::IndexMap;
use lk_base::{Name, NoMemory};
use std::alloc::Global;
use std::marker::Model;

/// Of each name the least number that came to it.
#[derive(Drop)]
pub(crate) struct Leasts {
    numbers: IndexMap<Name, u32>,
}

impl Model for Leasts {
    ghost use Rattle.std.specs.Prelude.{ℕ, List};

    ghost Value = { List (List ℕ × ℕ) };

    ghost view = { λ leasts. leasts.numbers.entries };
}

impl Leasts {
    /// No names.
    pub(crate) fn new(alloc: Global) -> Leasts
        ensures { result ≡ [] }
    {
        Leasts {
            numbers: IndexMap::new(alloc),
        }
    }

    /// The least number of a name, where it has one.
    pub(crate) fn find(&self, name: &Name) -> Option<u32>
        ensures { result ≡ number_at self.now name.now }
    {
        self.numbers.get(name).copied()
    }

    /// Sets the number of a name.
    fn put(&mut self, name: &Name, number: u32) -> Result<(), NoMemory>
        ensures { OnOk result (IsNumberPut self.old self.new name.now number) }
    {
        self.numbers.insert(name.copy()?, number)?;
        Ok(())
    }

    /// Keeps a number that comes to a name, where it is less than that which is there.
    pub(crate) fn note(&mut self, name: &Name, number: u32) -> Result<(), NoMemory>
        ensures { OnOk result (IsNoted self.old self.new name.now number) }
    {
        match self.find(name) {
            Some(before) => {
                if before <= number {
                    return Ok(());
                }
                self.put(name, number)?;
                Ok(())
            }
            None => {
                self.put(name, number)?;
                Ok(())
            }
        }
    }

    /// The names of a list, each with the number 0.
    pub(crate) fn of_list(alloc: Global, names: &[Name]) -> Result<Leasts, NoMemory>
        ensures { IfOk result (AreListed names.now) }
    {
        let mut leasts = Leasts::new(alloc);
        for name in names {
            leasts.note(name, 0)?;
        }
        Ok(leasts)
    }
}
