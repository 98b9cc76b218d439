//! The parts of a declared object, and the values that they begin with (C99 6.7.8).
ghost use Rattle.std.specs.Prelude.{◌≡◌, ◌++◌, length, OnOk};
ghost use Rattle.lk_lower_expr.specs.Initialisers as initialisers;
ghost use Rattle.lk_lower_expr.specs.Laid.{laid};
ghost use Rattle.lk_lower_expr.specs.Naming.{node_of_local};
ghost use Rattle.lk_lower_expr.specs.Reads.{names_by};
ghost use Rattle.lk_typed.specs.declared.initialiser.LocalValue.TheVariants as value;

use crate::text::{Text, push_text};
use crate::way::push_way;
use lk_base::{CellStep, NoMemory};
use lk_facts::Action;
use lk_lower_expr::{Deed, LocalNames, Lowering, NamedStep};
use lk_typed::{LocalPart, LocalValue, TypedExpr};

/// Adds the steps of a part that begins with the value of an expression, by the steps to the part.
pub fn push_value(
    source: &Lowering<'_>,
    local: &LocalNames,
    path: &[CellStep],
    e: &TypedExpr,
    deeds: &mut Vec<Deed>,
    steps: &mut Vec<NamedStep>,
) -> Result<(), NoMemory>
    ensures deeds { OnOk result (deeds.new.items ≡ deeds.old.items ++
        initialisers.part_deeds (names_by source.now) (node_of_local local.now) local.now.number
        (length deeds.old.items) path.now (value.Expr e.now)) }
    ensures steps { OnOk result (steps.new.items ≡ laid (initialisers.value_walk
        (names_by source.now) (node_of_local local.now) (length deeds.old.items) 0
        path.now (value.Expr e.now)) steps.old.items) }
{
    let pointer = push_way(source, local, path, deeds)?;
    let does = Action::Write {
        a: source.names.at(local.ordinal, pointer),
        b: source.value_of(e)?,
        raw: false,
    };
    let comes = Some(source.first_of(e)?);
    deeds.push(Deed {
        does,
        gives: None,
        comes,
    })?;
    source.push_steps(e, source.names.at(local.ordinal, pointer + 1), steps)
}

/// Adds the steps of a mutex or condition variable that begins ready.
fn push_ready(
    source: &Lowering<'_>,
    local: &LocalNames,
    path: &[CellStep],
    deeds: &mut Vec<Deed>,
) -> Result<(), NoMemory>
    ensures { OnOk result (deeds.new.items ≡ deeds.old.items ++
        initialisers.part_deeds (names_by source.now) (node_of_local local.now) local.now.number
        (length deeds.old.items) path.now value.Ready) }
{
    let pointer = push_way(source, local, path, deeds)?;
    deeds.push(Deed {
        does: Action::Init(source.names.at(local.ordinal, pointer)),
        gives: None,
        comes: None,
    })?;
    Ok(())
}

/// Adds the steps of a part of a declared object, and those of its value.
fn push_one(
    source: &Lowering<'_>,
    local: &LocalNames,
    part: &LocalPart,
    deeds: &mut Vec<Deed>,
    steps: &mut Vec<NamedStep>,
) -> Result<(), NoMemory>
    ensures deeds { OnOk result (deeds.new.items ≡ deeds.old.items ++
        initialisers.part_deeds (names_by source.now) (node_of_local local.now) local.now.number
        (length deeds.old.items) part.now.path part.now.value) }
    ensures steps { OnOk result (steps.new.items ≡ laid (initialisers.value_walk
        (names_by source.now) (node_of_local local.now) (length deeds.old.items) part.now.ty
        part.now.path part.now.value) steps.old.items) }
{
    let path = part.path.list();
    match &part.value {
        LocalValue::Expr(e) => push_value(source, local, path, e, deeds, steps),
        LocalValue::Text(spot, node, bytes) => {
            let text = Text {
                spot: *spot,
                node: *node,
            };
            push_text(
                source,
                local,
                path,
                part.ty,
                text,
                bytes.list(),
                deeds,
                steps,
            )
        }
        LocalValue::Ready => push_ready(source, local, path, deeds),
    }
}

/// Adds the steps of the parts that an initialiser names, one after the other, and those of their values.
pub(crate) fn push_parts(
    source: &Lowering<'_>,
    local: &LocalNames,
    named: &[LocalPart],
    deeds: &mut Vec<Deed>,
    steps: &mut Vec<NamedStep>,
) -> Result<(), NoMemory>
    ensures deeds { OnOk result (deeds.new.items ≡ deeds.old.items ++
        initialisers.parts_deeds (names_by source.now) (node_of_local local.now) local.now.number
        (length deeds.old.items) named.now) }
    ensures steps { OnOk result (steps.new.items ≡ laid (initialisers.values_walk
        (names_by source.now) (node_of_local local.now) local.now.number (length deeds.old.items) named.now)
        steps.old.items) }
{
    for part in named {
        push_one(source, local, part, deeds, steps)?;
    }
    Ok(())
}
