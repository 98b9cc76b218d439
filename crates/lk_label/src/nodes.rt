//! Lists of different nodes.
ghost use Rattle.std.specs.Prelude.{◌≡◌, ◌<◌, ◌^◌, ◌↔◌, [], length, Contains, Some, slice_get, true, IfOk};
ghost use Rattle.lk_facts.specs.Places.{AreDifferent, IsPut};

use indexmap::IndexSet;
use lk_base::NoMemory;
use lk_types::NodeId;
use std::alloc::Global;
use std::marker::Model;

/// Nodes, each once. A contract sees them as the list of them.
#[derive(Drop)]
pub struct Nodes {
    set: IndexSet<NodeId>,
}

impl Model for Nodes {
    ghost use Rattle.std.specs.Prelude.{List};
    ghost use Rattle.lk_types.specs.declared.node.NodeId.{NodeId};

    ghost Value = { List NodeId };

    ghost view = { λ nodes. nodes.set.keys };
}

impl Nodes {
    /// No nodes.
    pub fn new(alloc: Global) -> Nodes
        ensures { result ≡ [] }
    {
        Nodes {
            set: IndexSet::new(alloc),
        }
    }

    /// The nodes, as a slice.
    pub fn list(&self) -> &[NodeId]
        ensures value { result.now ≡ self.now }
        ensures different { AreDifferent self.now }
    {
        self.set.as_slice()
    }

    /// How many nodes there are.
    pub fn len(&self) -> usize
        ensures value { result ≡ length self.now }
        ensures few { length self.now < 2 ^ 63 }
    {
        self.set.len()
    }

    /// The node with this number.
    pub fn at(&self, number: usize) -> NodeId
        requires { number < length self.now }
        ensures { slice_get self.now number ≡ Some result }
    {
        self.set.as_slice()[number]
    }

    /// Whether a node is among them.
    pub fn has(&self, node: &NodeId) -> bool
        ensures { (result ≡ true) ↔ Contains self.now node.now }
    {
        self.set.contains(node)
    }

    /// The number of a node: that of the equal one that is there, or of the one put at the end.
    pub fn put(&mut self, node: &NodeId) -> Result<usize, NoMemory>
        ensures { IfOk result (IsPut self.old self.new node.now) }
    {
        let NodeId { base, number } = *node;
        let (place, _added) = self.set.insert_full(NodeId { base, number })?;
        Ok(place)
    }
}
