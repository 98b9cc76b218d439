//! The nodes of a type that are reached without going through a pointer.
ghost use Rattle.std.specs.Prelude.{◌≡◌, ◌↔◌, Contains, IfOk, OnOk};
ghost use Rattle.lk_facts.specs.LabelRules.{IsWithin};
ghost use Rattle.lk_types.specs.Nodes.{IsNode};
ghost use Rattle.lk_types.specs.Table.{IsKnown, type_at};
ghost use Rattle.lk_types.specs.declared.node.NodeId.{NodeId};
ghost use Rattle.lk_label.specs.Inner.{PutsInner, has_inner};

use crate::named::put_all;
use crate::nodes::Nodes;
use crate::parts::parts_in_order;
use lk_base::NoMemory;
use lk_types::{CType, NodeId, TypeId, TypeTable};
use std::alloc::Global;

/// Whether the parts of a type lie in the same object: those of an array, of a struct,
/// and of what `void *` points to.
fn has_inner(types: &TypeTable, t: TypeId) -> bool
    requires { IsKnown types.now t }
    ensures { result ≡ has_inner (type_at types.now t) }
{
    match types.get(t) {
        CType::Void | CType::Array(_, _) | CType::Struct(_) => true,
        CType::Int(_)
        | CType::ThreadId
        | CType::Mutex
        | CType::Cond
        | CType::Pointer(_)
        | CType::Function { .. }
        | CType::Opaque(_) => false,
    }
}

/// Puts the parts of a node that lie in the same object.
fn put_inner(
    alloc: Global,
    types: &TypeTable,
    node: &NodeId,
    found: &mut Nodes,
) -> Result<(), NoMemory>
    requires { IsNode types.now node.now }
    ensures { OnOk result (PutsInner types.now node.now found.old found.new) }
{
    if !has_inner(types, types.node_type(*node)) {
        return Ok(());
    }
    let parts = parts_in_order(alloc, types, node)?;
    put_all(&parts, found)
}

/// The nodes of a type that are reached from its Start without going through a pointer.
pub fn nodes_within(alloc: Global, types: &TypeTable, t: TypeId) -> Result<Nodes, NoMemory>
    requires { IsKnown types.now t }
    ensures { IfOk result (λ nodes. (n : NodeId) → Contains nodes n ↔ IsWithin types.now t n) }
{
    let mut found = Nodes::new(alloc);
    found.put(&types.start_node(t))?;
    for k in 0..usize::MAX {
        if k >= found.len() {
            return Ok(found);
        }
        let node = found.at(k);
        put_inner(alloc, types, &node, &mut found)?;
    }
    prove!(found.len() < usize::MAX);
    unreachable!()
}
