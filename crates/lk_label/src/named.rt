//! The nodes of a type that name places and functions.
ghost use Rattle.std.specs.Prelude.{◌≡◌, ◌↔◌, true, Contains, IfOk, OnOk};
ghost use Rattle.lk_types.specs.Nodes.{IsNode};
ghost use Rattle.lk_types.specs.Table.{IsKnown};
ghost use Rattle.lk_types.specs.declared.node.NodeId.{NodeId};
ghost use Rattle.lk_facts.specs.LabelRules.{IsStart};
ghost use Rattle.lk_label.specs.Naming.{AreJoined, AreKept, AreNamed, ArePlaces, IsPutPlaces};
ghost use Rattle.lk_label.specs.Walking.{IsWalkOf};

use crate::nodes::Nodes;
use crate::parts::{is_function, parts_in_order};
use crate::walk::walk_nodes;
use lk_base::NoMemory;
use lk_types::{NodeId, TypeId, TypeTable};
use std::alloc::Global;

/// Puts all of these nodes.
pub fn put_all(nodes: &[NodeId], found: &mut Nodes) -> Result<(), NoMemory>
    ensures { OnOk result (AreJoined found.old nodes.now found.new) }
{
    for node in nodes {
        found.put(node)?;
    }
    Ok(())
}

/// Puts the places and functions to which steps lead from a node: its parts, or none where it is a function,
/// since its result and its parameters are values.
fn put_places(
    alloc: Global,
    types: &TypeTable,
    node: &NodeId,
    places: &mut Nodes,
) -> Result<(), NoMemory>
    requires { IsNode types.now node.now }
    ensures { OnOk result (IsPutPlaces types.now node.now places.old places.new) }
{
    if is_function(types, types.node_type(*node)) {
        return Ok(());
    }
    let parts = parts_in_order(alloc, types, node)?;
    put_all(&parts, places)
}

/// The Start of a type, where a root has it.
fn start_place(alloc: Global, types: &TypeTable, t: TypeId, whole: bool) -> Result<Nodes, NoMemory>
    requires { IsKnown types.now t }
    ensures { IfOk result (λ nodes. (n : NodeId) → Contains nodes n ↔ ((whole ≡ true) × IsStart types.now t n)) }
{
    let mut places = Nodes::new(alloc);
    if !whole {
        return Ok(places);
    }
    places.put(&types.start_node(t))?;
    Ok(places)
}

/// The places and functions to which steps lead from the nodes of a type, and its
/// Start where a root has the type.
fn places(
    alloc: Global,
    types: &TypeTable,
    t: TypeId,
    whole: bool,
    walk: &Nodes,
) -> Result<Nodes, NoMemory>
    requires known { IsKnown types.now t }
    requires walk { IsWalkOf types.now t walk.now }
    ensures { IfOk result (ArePlaces types.now t whole walk.now) }
{
    let mut places = start_place(alloc, types, t, whole)?;
    for node in walk.list() {
        put_places(alloc, types, node, &mut places)?;
    }
    Ok(places)
}

/// Those of the nodes that are among others.
fn kept(alloc: Global, nodes: &[NodeId], others: &Nodes) -> Result<Vec<NodeId>, NoMemory>
    ensures { IfOk result (λ kept. AreKept nodes.now others.now kept.items) }
{
    let mut kept = Vec::new(alloc);
    for node in nodes {
        if others.has(node) {
            let NodeId { base, number } = *node;
            kept.push(NodeId { base, number })?;
        }
    }
    Ok(kept)
}

/// The nodes of a type that name a place or a function, in the order of its walk. The Start does so where a
/// root has the type (`whole`).
pub fn named_nodes(
    alloc: Global,
    types: &TypeTable,
    t: TypeId,
    whole: bool,
) -> Result<Vec<NodeId>, NoMemory>
    requires { IsKnown types.now t }
    ensures { IfOk result (λ nodes. AreNamed types.now t whole nodes.items) }
{
    let walk = walk_nodes(alloc, types, t)?;
    let places = places(alloc, types, t, whole, &walk)?;
    kept(alloc, walk.list(), &places)
}
