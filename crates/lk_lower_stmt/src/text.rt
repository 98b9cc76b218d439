//! The bytes of a string literal that initialises an array of a declared object (C99 6.7.8, 14).
ghost use Rattle.std.specs.Prelude.{◌≡◌, ◌++◌, ◌∷◌, ◌+◌, ◌<◌, ◌^◌, [], false, length, IfOk, OnOk, Some};
ghost use Rattle.lk_base.specs.declared.cell.CellStep.TheVariants.{Index as IndexStep};
ghost use Rattle.lk_facts.specs.declared.action.Action.TheVariants as does;
ghost use Rattle.lk_lower_expr.specs.Initialisers as initialisers;
ghost use Rattle.lk_lower_expr.specs.Laid.{laid_from};
ghost use Rattle.lk_lower_expr.specs.Naming.{at_of, node_of_local, part_type};
ghost use Rattle.lk_lower_expr.specs.Reads.{names_by};
ghost use Rattle.lk_lower_expr.specs.Parts as parts;
ghost use Rattle.lk_types.specs.Table.{type_at};

use crate::way::{inside, push_way};
use lk_arith::convert;
use lk_base::{CellStep, NoMemory, Seq, Spot};
use lk_facts::Action;
use lk_lower_expr::{Deed, LocalNames, Lowering, NamedStep, Step, lay};
use lk_types::{CType, TypeId, TypeTable};
use std::alloc::Global;

/// A string literal that initialises an array.
#[derive(Clone, Copy)]
pub(crate) struct Text {
    /// The literal's place.
    pub(crate) spot: Spot,
    /// The number of its node.
    pub(crate) node: u32,
}

/// A byte of a text as an element of a type, converted to its kind.
fn byte_of(table: &TypeTable, ty: TypeId, byte: u8) -> i128
    ensures { result ≡ initialisers.byte_of (type_at table.now ty) byte }
{
    let number = i128::from(byte);
    if ty.0 >= table.count() {
        return number;
    }
    match table.get(ty) {
        CType::Int(kind) => convert(*kind, number),
        CType::Void
        | CType::ThreadId
        | CType::Mutex
        | CType::Cond
        | CType::Pointer(_)
        | CType::Array(_, _)
        | CType::Struct(_)
        | CType::Function { .. }
        | CType::Opaque(_) => number,
    }
}

/// The step of the value of a byte of a text, which leads to the step that writes it.
fn byte_step(
    source: &Lowering<'_>,
    ty: TypeId,
    byte: u8,
    spot: Spot,
    on: u32,
) -> Result<Step, NoMemory>
    ensures { IfOk result (λ is. is ≡ parts.step
        (does.Value (initialisers.byte_of (type_at source.now.table.now ty) byte)
        ((names_by source.now).type ty))
        (parts.value_of (names_by source.now) ty) spot on) }
{
    let does = Action::Value {
        number: byte_of(source.table, ty, byte),
        ty: source.names.type_number(ty),
    };
    Ok(Step {
        does,
        gives: source.value_type(ty),
        next: Seq::new(vec![in source.alloc; on]?),
        spot,
    })
}

/// The steps from an object to an element of an array, by those to the array.
fn element_path(alloc: Global, path: &[CellStep], index: u32) -> Result<Vec<CellStep>, NoMemory>
    ensures { IfOk result (λ steps. steps.items ≡ path.now ++ (IndexStep index ∷ [])) }
{
    let mut steps = path.to_vec(alloc)?;
    steps.push(CellStep::Index(u64::from(index)))?;
    Ok(steps)
}

/// Adds the steps that write a byte of the text at a node into an element of an array.
/// Answers the one that writes.
fn push_byte(
    source: &Lowering<'_>,
    local: &LocalNames,
    path: &[CellStep],
    node: u32,
    index: u32,
    deeds: &mut Vec<Deed>,
) -> Result<u32, NoMemory>
    requires few { index < 2 ^ 30 }
    ensures deeds { OnOk result (deeds.new.items ≡ deeds.old.items ++
        initialisers.settled (names_by source.now) (node_of_local local.now) local.now.number
        (length deeds.old.items) (path.now ++ (IndexStep index ∷ []))
        (Some (at_of source.now.names.now node index))
        (λ pointer. does.Write pointer (at_of source.now.names.now node index) false)) }
    ensures writes { IfOk result (λ k.
        k ≡ 1 + initialisers.pointed (length deeds.old.items) (path.now ++ (IndexStep index ∷ []))) }
    ensures last { IfOk result (λ k. length deeds.new.items ≡ k + 1) }
    ensures few { IfOk result (λ k. k < 2 ^ 31) }
{
    let path = element_path(source.alloc, path, index)?;
    let pointer = push_way(source, local, &path, deeds)?;
    let value = source.names.at(node, index);
    let does = Action::Write {
        a: source.names.at(local.ordinal, pointer),
        b: value,
        raw: false,
    };
    deeds.push(Deed {
        does,
        gives: None,
        comes: Some(value),
    })?;
    Ok(pointer + 1)
}

/// The number of the next byte.
fn next_byte(index: u32) -> Result<u32, NoMemory>
    requires { index < 2 ^ 30 }
    ensures value { IfOk result (λ next. next ≡ index + 1) }
    ensures few { IfOk result (λ next. next < 2 ^ 30) }
{
    if index + 1 >= 1 << 30 {
        return Err(NoMemory);
    }
    Ok(index + 1)
}

/// Adds the steps of the bytes of a text, which go to the elements of an array of type `ty`, and those of
/// their values, which are steps of the text.
pub(crate) fn push_text(
    source: &Lowering<'_>,
    local: &LocalNames,
    path: &[CellStep],
    ty: TypeId,
    text: Text,
    bytes: &[u8],
    deeds: &mut Vec<Deed>,
    steps: &mut Vec<NamedStep>,
) -> Result<(), NoMemory>
    ensures deeds { OnOk result (deeds.new.items ≡ deeds.old.items ++
        initialisers.text_deeds (names_by source.now) (node_of_local local.now) local.now.number
        (length deeds.old.items) path.now text.node 0 bytes.now) }
    ensures steps { OnOk result (steps.new.items ≡ laid_from text.node 0 (initialisers.byte_steps
        (names_by source.now) (node_of_local local.now) text.spot (length deeds.old.items)
        (part_type source.now.table.now ty (IndexStep 0)) path.now 0 bytes.now) steps.old.items) }
{
    let element = inside(source.table, ty, CellStep::Index(0));
    let mut own = Vec::new(source.alloc);
    let mut index = 0;
    for byte in bytes {
        let writes = push_byte(source, local, path, text.node, index, deeds)?;
        let on = source.names.at(local.ordinal, writes);
        own.push(byte_step(source, element, *byte, text.spot, on)?)?;
        index = next_byte(index)?;
    }
    lay(text.node, own, steps)
}
