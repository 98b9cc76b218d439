//! Labels by their names.
ghost use Rattle.std.specs.Prelude.{◌≡◌, [], List, IfSome, OnOk};
ghost use Rattle.lk_typed.specs.Labels.{Label};
ghost use Rattle.lk_labels.specs.Leasts.{AreLabels, LabelNamed, lesser_of, number_of, put_label};

use indexmap::IndexMap;
use lk_base::{Name, NoMemory};
use std::alloc::Global;
use std::marker::Model;

/// The labels of a function: of each name the least number of a node that is a label with it (C99 6.8.1).
///
/// A contract sees them as the list of these names and numbers (`AreLabels`).
#[derive(Drop)]
pub struct Labels {
    least: IndexMap<Name, u32>,
}

impl Model for Labels {
    ghost use Rattle.lk_labels.specs.Leasts.{Leasts};

    ghost Value = { Leasts };

    ghost view = { λ labels. labels.least.entries };
}

/// The lesser of a number and one that may be there.
fn lesser_of(number: u32, other: Option<u32>) -> u32
    ensures { result ≡ lesser_of number other }
{
    match other {
        Some(other) => number.min(other),
        None => number,
    }
}

impl Labels {
    /// No label. It takes no memory.
    pub(crate) fn new(alloc: Global) -> Labels
        ensures { result ≡ [] }
    {
        Labels {
            least: IndexMap::new(alloc),
        }
    }

    /// The least number of a label with this name, where there is one.
    pub fn number_of(&self, name: &Name) -> Option<u32>
        ensures number { result ≡ number_of self.now name.now }
        ensures named { IfSome result (λ n. (found : List Label) → AreLabels self.now found →
            LabelNamed found name.now n) }
    {
        self.least.get(name).copied()
    }

    /// Puts a label. Of those with its name the least number is kept.
    pub(crate) fn put(&mut self, name: &Name, number: u32) -> Result<(), NoMemory>
        ensures { OnOk result (self.new ≡ put_label self.old name.now number) }
    {
        let least = lesser_of(number, self.number_of(name));
        self.least.insert(name.copy()?, least)?;
        Ok(())
    }
}
