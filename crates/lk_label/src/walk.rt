//! The walk through the nodes of a type.
ghost use Rattle.std.specs.Prelude.{◌≡◌, ◌++◌, reverse, OnOk, IfOk};
ghost use Rattle.lk_types.specs.Nodes.{IsNode};
ghost use Rattle.lk_types.specs.Table.{IsKnown};
ghost use Rattle.lk_facts.specs.Places.{IsMissing};
ghost use Rattle.lk_label.specs.Walking.{IsWalkOf, IsNext, Goes};

use crate::nodes::Nodes;
use crate::parts::parts_in_order;
use lk_base::NoMemory;
use lk_types::{NodeId, TypeId, TypeTable};
use std::alloc::Global;

/// Takes nodes from the end of those ahead until one isn't among the listed, and gives that one.
fn next_new(listed: &Nodes, ahead: &mut Vec<NodeId>) -> Option<NodeId>
    ensures { IsNext listed.now (reverse ahead.old.items) result (reverse ahead.new.items) }
{
    while let Some(node) = ahead.last() {
        if !listed.has(node) {
            return ahead.pop();
        }
        ahead.pop();
    }
    None
}

/// Puts nodes before all that are ahead, whose next one is the last of the list.
fn push_ahead(nodes: &[NodeId], ahead: &mut Vec<NodeId>) -> Result<(), NoMemory>
    ensures { OnOk result (reverse ahead.new.items ≡ nodes.now ++ reverse ahead.old.items) }
{
    for index in (0..nodes.len()).rev() {
        let NodeId { base, number } = nodes[index];
        ahead.push(NodeId { base, number })?;
    }
    Ok(())
}

/// Lists a node, and puts its parts before all that are ahead.
fn visit(
    alloc: Global,
    types: &TypeTable,
    node: &NodeId,
    listed: &mut Nodes,
    ahead: &mut Vec<NodeId>,
) -> Result<(), NoMemory>
    requires node { IsNode types.now node.now }
    requires new { IsMissing listed.old node.now }
    ensures { OnOk result (Goes types.now node.now listed.old listed.new (reverse ahead.old.items) (reverse ahead.new.items)) }
{
    let parts = parts_in_order(alloc, types, node)?;
    listed.put(node)?;
    push_ahead(&parts, ahead)
}

/// All nodes of a type, in the order of a walk from its Start: depth first, each once and before its parts.
pub fn walk_nodes(alloc: Global, types: &TypeTable, t: TypeId) -> Result<Nodes, NoMemory>
    requires { IsKnown types.now t }
    ensures { IfOk result (IsWalkOf types.now t) }
{
    let mut listed = Nodes::new(alloc);
    let mut ahead = Vec::new(alloc);
    let NodeId { base, number } = types.start_node(t);
    ahead.push(NodeId { base, number })?;
    for _ in 0..usize::MAX {
        match next_new(&listed, &mut ahead) {
            Some(node) => visit(alloc, types, &node, &mut listed, &mut ahead)?,
            None => return Ok(listed),
        }
    }
    prove!(listed.len() < usize::MAX);
    unreachable!()
}
