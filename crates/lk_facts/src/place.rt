//! Places: what cells of one root have in common when indices are forgotten.
ghost use Rattle.std.specs.Prelude.{◌≡◌, ◌<◌, ◌≤◌, [], length, Some, IfOk, OnErr};
ghost use Rattle.lk_facts.specs.Places.{IsNumberOf, IsPut, AreDifferent};
ghost use Rattle.lk_facts.specs.Program.{place_of};

use indexmap::IndexSet;
use lk_base::NoMemory;
use lk_types::NodeId;
use std::alloc::Global;
use std::marker::Model;

/// The place of a cell: a root, and the part of its type that the cell is, indices forgotten.
#[derive(Clone, Copy, PartialEq, Eq, Hash)]
pub struct Place {
    /// The number of the root.
    pub root: u32,
    /// The part of the root's type.
    pub node: NodeId,
}

/// Places by number, each once. A contract sees them as the list of them.
#[derive(Drop)]
pub struct Places {
    set: IndexSet<Place>,
}

impl Model for Places {
    ghost use Rattle.std.specs.Prelude.{List};
    ghost use Rattle.lk_facts.specs.declared.place.Place.{Place};

    ghost Value = { List Place };

    ghost view = { λ places. places.set.keys };
}

impl Places {
    /// No places.
    pub fn new(alloc: Global) -> Places
        ensures { result ≡ [] }
    {
        Places {
            set: IndexSet::new(alloc),
        }
    }

    /// How many places there are.
    pub fn len(&self) -> usize
        ensures value { result ≡ length self.now }
        ensures different { AreDifferent self.now }
    {
        self.set.len()
    }

    /// The number of this part of a root: that of the equal place that is there, or of the place put at the
    /// end. Where no memory is found the places are as before.
    pub fn put(&mut self, root: u32, node: NodeId) -> Result<u32, NoMemory>
        requires { length self.old < 65536 }
        ensures put { IfOk result (IsPut self.old self.new (place_of root node)) }
        ensures err { OnErr result (self.new ≡ self.old) }
    {
        let NodeId { base, number } = node;
        let node = NodeId { base, number };
        let (number, _added) = self.set.insert_full(Place { root, node })?;
        Ok(number as u32)
    }

    /// The places, as a slice.
    pub fn list(&self) -> &[Place]
        ensures { result.now ≡ self.now }
    {
        self.set.as_slice()
    }

    /// The number of a place, or nothing where it isn't there.
    pub fn find(&self, place: Place) -> Option<u32>
        requires { length self.now ≤ 65536 }
        ensures { IsNumberOf self.now place result }
    {
        let number = self.set.get_index_of(&place)?;
        Some(number as u32)
    }
}
