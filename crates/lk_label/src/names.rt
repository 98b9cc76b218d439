//! Names of labels, each once.
ghost use Rattle.std.specs.Prelude.{◌≡◌, ◌<◌, ◌^◌, ◌↔◌, [], length, Contains, true, IfOk};
ghost use Rattle.lk_facts.specs.Labels.{name_with};
ghost use Rattle.lk_facts.specs.Places.{AreDifferent, IsNumberOf, IsPut};

use indexmap::IndexSet;
use lk_base::NoMemory;
use lk_facts::{Holder, LabelName};
use lk_types::NodeId;
use std::alloc::Global;
use std::marker::Model;

/// Names of labels, each once. A contract sees them as the list of them.
#[derive(Drop)]
pub struct Names {
    set: IndexSet<LabelName>,
}

impl Model for Names {
    ghost use Rattle.std.specs.Prelude.{List};
    ghost use Rattle.lk_facts.specs.declared.label_entry.LabelName.{LabelName};

    ghost Value = { List LabelName };

    ghost view = { λ names. names.set.keys };
}

impl Names {
    /// No names.
    pub fn new(alloc: Global) -> Names
        ensures { result ≡ [] }
    {
        Names {
            set: IndexSet::new(alloc),
        }
    }

    /// The names, as a slice.
    pub fn list(&self) -> &[LabelName]
        ensures value { result.now ≡ self.now }
        ensures different { AreDifferent self.now }
    {
        self.set.as_slice()
    }

    /// Does nothing when run, and brings into the caller's proof that all names are different.
    pub fn are_different(&self)
        ensures { AreDifferent self.now }
    {
        let _names = self.list();
    }

    /// How many names there are.
    pub fn len(&self) -> usize
        ensures value { result ≡ length self.now }
        ensures few { length self.now < 2 ^ 63 }
    {
        self.set.len()
    }

    /// Whether a name is among them.
    pub fn has(&self, name: &LabelName) -> bool
        ensures { (result ≡ true) ↔ Contains self.now name.now }
    {
        self.set.contains(name)
    }

    /// The number of a name, or nothing where it isn't there.
    pub fn find(&self, name: LabelName) -> Option<usize>
        ensures { IsNumberOf self.now name result }
    {
        self.set.get_index_of(&name)
    }

    /// The number of a name: that of the equal one that is there, or of the one put at the end.
    pub fn put(&mut self, holder: Holder, node: NodeId) -> Result<usize, NoMemory>
        ensures { IfOk result (IsPut self.old self.new (name_with holder node)) }
    {
        let NodeId { base, number } = node;
        let node = NodeId { base, number };
        let (place, _added) = self.set.insert_full(LabelName { holder, node })?;
        Ok(place)
    }

    /// The set of the names.
    pub fn into_set(self) -> IndexSet<LabelName>
        ensures { result.keys ≡ self }
    {
        self.set
    }
}
