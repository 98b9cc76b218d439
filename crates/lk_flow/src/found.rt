//! Edges that are found so far.
ghost use Rattle.std.specs.Prelude.{◌≡◌, ◌<◌, ◌^◌, [], length, Some, slice_get, IfOk, OnOk};
ghost use Rattle.lk_facts.specs.Paths.{edge_of};
ghost use Rattle.lk_facts.specs.Places.{AreDifferent, IsPut};
ghost use Rattle.lk_flow.specs.Growing.{Adds, IsPair};

use indexmap::IndexSet;
use lk_base::NoMemory;
use lk_facts::{Edge, Label, Mark};
use std::alloc::Global;
use std::marker::Model;

/// Edges, each once. A contract sees them as the list of them.
#[derive(Drop)]
pub struct Found {
    set: IndexSet<Edge>,
}

impl Model for Found {
    ghost use Rattle.std.specs.Prelude.{List};
    ghost use Rattle.lk_facts.specs.declared.edge.Edge.{Edge};

    ghost Value = { List Edge };

    ghost view = { λ found. found.set.keys };
}

impl Found {
    /// No edges.
    pub fn new(alloc: Global) -> Found
        ensures { result ≡ [] }
    {
        Found {
            set: IndexSet::new(alloc),
        }
    }

    /// The edges, as a slice.
    pub fn list(&self) -> &[Edge]
        ensures value { result.now ≡ self.now }
        ensures different { AreDifferent self.now }
    {
        self.set.as_slice()
    }

    /// Does nothing when run, and brings into the caller's proof that all edges are different.
    pub fn are_different(&self)
        ensures { AreDifferent self.now }
    {
        let _edges = self.list();
    }

    /// How many edges there are.
    pub fn count(&self) -> usize
        ensures value { result ≡ length self.now }
        ensures few { length self.now < 2 ^ 63 }
    {
        self.set.len()
    }

    /// The edge with this number.
    pub fn at(&self, number: usize) -> Edge
        requires { number < length self.now }
        ensures { slice_get self.now number ≡ Some result }
    {
        self.set.as_slice()[number]
    }

    /// The number of an edge: that of the equal one that is there, or of the one put at the end.
    fn insert(&mut self, from: Label, to: Label, mark: &Mark) -> Result<usize, NoMemory>
        ensures { IfOk result (IsPut self.old self.new (edge_of from to mark.now)) }
    {
        let mark = *mark;
        let (place, _added) = self.set.insert_full(Edge { from, to, mark })?;
        Ok(place)
    }

    /// Puts the edge from one label to another, where both are there.
    pub fn put(
        &mut self,
        from: Option<Label>,
        to: Option<Label>,
        mark: &Mark,
    ) -> Result<(), NoMemory>
        ensures { OnOk result (Adds (IsPair from to mark.now) self.old self.new) }
    {
        match (from, to) {
            (Some(from), Some(to)) => {
                self.insert(from, to, mark)?;
                Ok(())
            }
            (None, _) | (Some(_), None) => Ok(()),
        }
    }
}
