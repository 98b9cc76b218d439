//! The initialisers of objects of static storage (C99 6.7.8, 4). Control never comes to their steps.
ghost use Rattle.std.specs.Prelude.{◌≡◌, ◌++◌, length, map, OnOk};
ghost use Rattle.lk_lower_expr.specs.Laid.{laid};
ghost use Rattle.lk_lower_expr.specs.Naming.{node_of_local};
ghost use Rattle.lk_lower_expr.specs.Reads.{names_by};
ghost use Rattle.lk_lower_expr.specs.Statics as statics;
ghost use Rattle.lk_lower_unit.specs.Pointers.{ended_here, pointer_deeds, pointer_walk};

use lk_base::{NoMemory, Seq};
use lk_lower_expr::{Deed, LocalNames, Lowering, NamedStep, lay};
use lk_lower_stmt::{numbered, push_value};
use lk_typed::StaticPart;
use std::alloc::Global;

/// Adds the steps of a part, where that is a pointer.
fn push_pointer(
    source: &Lowering<'_>,
    declared: &LocalNames,
    part: &StaticPart,
    deeds: &mut Vec<Deed>,
    steps: &mut Vec<NamedStep>,
) -> Result<(), NoMemory>
    ensures deeds { OnOk result (deeds.new.items ≡ deeds.old.items ++
        pointer_deeds (names_by source.now) (node_of_local declared.now) declared.now.number
        (length deeds.old.items) part.now.path part.now.pointer) }
    ensures steps { OnOk result (steps.new.items ≡ laid (pointer_walk
        (names_by source.now) (node_of_local declared.now) (length deeds.old.items) part.now.path
        part.now.pointer) steps.old.items) }
{
    match &part.pointer {
        None => Ok(()),
        Some(e) => push_value(source, declared, part.path.list(), e, deeds, steps),
    }
}

/// Adds the steps of the pointers among the parts that an initialiser names, one after the
/// other, and those of their values.
fn push_pointers(
    source: &Lowering<'_>,
    declared: &LocalNames,
    parts: &[StaticPart],
    deeds: &mut Vec<Deed>,
    steps: &mut Vec<NamedStep>,
) -> Result<(), NoMemory>
    ensures deeds { OnOk result (deeds.new.items ≡ deeds.old.items ++
        statics.pointers_deeds (names_by source.now) (node_of_local declared.now) declared.now.number
        (length deeds.old.items) parts.now) }
    ensures steps { OnOk result (steps.new.items ≡ laid (statics.values_walk
        (names_by source.now) (node_of_local declared.now) declared.now.number
        (length deeds.old.items) parts.now) steps.old.items) }
{
    for part in parts {
        push_pointer(source, declared, part, deeds, steps)?;
    }
    Ok(())
}

/// Adds steps to others, each without a point at which control goes on.
fn push_ended(
    alloc: Global,
    ended: Vec<NamedStep>,
    steps: &mut Vec<NamedStep>,
) -> Result<(), NoMemory>
    ensures { OnOk result (steps.new.items ≡ steps.old.items ++ map ended_here ended.items) }
{
    for step in ended {
        let mut last = step;
        last.is.next = Seq::new(Vec::new(alloc));
        steps.push(last)?;
    }
    Ok(())
}

/// Adds the steps of the initialiser of an object of static storage, by its declared name and its root: those
/// of the pointers that it names.
///
/// `Err` comes for want of memory.
pub fn push_static(
    source: &Lowering<'_>,
    declared: &LocalNames,
    parts: &[StaticPart],
    steps: &mut Vec<NamedStep>,
) -> Result<(), NoMemory>
    ensures { OnOk result (steps.new.items ≡ laid (statics.static_walk (names_by source.now)
        (node_of_local declared.now) declared.now.number parts.now) steps.old.items) }
{
    let mut deeds = Vec::new(source.alloc);
    let mut ended = Vec::new(source.alloc);
    push_pointers(source, declared, parts, &mut deeds, &mut ended)?;
    let own = numbered(source, declared, deeds, 0)?;
    lay(declared.ordinal, own, &mut ended)?;
    push_ended(source.alloc, ended, steps)
}
