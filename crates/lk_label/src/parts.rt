//! The parts of a node.
ghost use Rattle.std.specs.Prelude.{◌≡◌, ◌++◌, ◌∷◌, [], List, length, IfOk, OnOk};
ghost use Rattle.lk_types.specs.Nodes.{IsNode, IsSel};
ghost use Rattle.lk_types.specs.Table.{IsKnown, fields_of, type_at};
ghost use Rattle.lk_types.specs.declared.node.Sel.{Sel};
ghost use Rattle.lk_facts.specs.LabelRules.{is_function};
ghost use Rattle.lk_label.specs.Parts.{HasParts};
ghost use Rattle.lk_label.specs.Walking.{ArePartsOfNode};

use lk_base::NoMemory;
use lk_types::{CType, NodeId, Sel, TypeId, TypeTable};
use std::alloc::Global;

/// How many fields a type has: a struct its members, a function its result and its parameters.
pub fn field_count(types: &TypeTable, t: TypeId) -> u32
    requires { IsKnown types.now t }
    ensures { result ≡ length (fields_of types.now (type_at types.now t)) }
{
    match types.get(t) {
        CType::Struct(s) => types.members(*s).len() as u32,
        CType::Function { params, .. } => params.list().len() as u32 + 1,
        CType::Void
        | CType::Int(_)
        | CType::ThreadId
        | CType::Mutex
        | CType::Cond
        | CType::Pointer(_)
        | CType::Array(_, _)
        | CType::Opaque(_) => 0,
    }
}

/// Whether a type is that of a function.
pub fn is_function(types: &TypeTable, t: TypeId) -> bool
    requires { IsKnown types.now t }
    ensures { result ≡ is_function (type_at types.now t) }
{
    match types.get(t) {
        CType::Function { .. } => true,
        CType::Void
        | CType::Int(_)
        | CType::ThreadId
        | CType::Mutex
        | CType::Cond
        | CType::Pointer(_)
        | CType::Array(_, _)
        | CType::Struct(_)
        | CType::Opaque(_) => false,
    }
}

/// Puts the part to which a step leads behind the others, where there is one.
fn push_part(
    types: &TypeTable,
    node: &NodeId,
    sel: Sel,
    parts: &mut Vec<NodeId>,
) -> Result<(), NoMemory>
    requires node { IsNode types.now node.now }
    requires sel { IsSel types.now sel }
    ensures { OnOk result ((sels : List Sel) → HasParts types.now node.now sels parts.old.items →
        HasParts types.now node.now (sels ++ sel ∷ []) parts.new.items) }
{
    if let Some(NodeId { base, number }) = types.step_node(*node, sel) {
        parts.push(NodeId { base, number })?;
    }
    Ok(())
}

/// The parts of a node, in order: Target, Element, Field by number, Part in the order of the table.
pub fn parts_in_order(
    alloc: Global,
    types: &TypeTable,
    node: &NodeId,
) -> Result<Vec<NodeId>, NoMemory>
    requires { IsNode types.now node.now }
    ensures { IfOk result (λ parts. ArePartsOfNode types.now node.now parts.items) }
{
    let mut parts = Vec::new(alloc);
    push_part(types, node, Sel::Target, &mut parts)?;
    push_part(types, node, Sel::Element, &mut parts)?;
    for number in 0..field_count(types, types.node_type(*node)) {
        push_part(types, node, Sel::Field(number), &mut parts)?;
    }
    for part in types.parts() {
        push_part(types, node, Sel::Part(*part), &mut parts)?;
    }
    Ok(parts)
}
