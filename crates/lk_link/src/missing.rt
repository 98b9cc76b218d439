//! Functions of internal linkage that are used and not defined.
ghost use Rattle.std.specs.Prelude.{◌≡◌, ◌<◌, ◌^◌, ◌↔◌, Some, length, IfOk, OnOk};
ghost use Rattle.std.specs.List.{Contains};
ghost use Rattle.lk_link.specs.Clashes.{IsMissingHere, IsMissingInside, HaveGained, IsInsideSource};

use crate::clash::Clash;
use crate::sources::is_defined;
use lk_base::{Code, NoMemory};
use lk_typed::{Entity, EntityKind, Linkage, TypedUnit};
use std::alloc::Global;

/// The clash of an entity of a source, where it is a function of internal linkage that
/// is used and not defined there.
fn missing_here(source: u32, entity: &Entity) -> Result<Option<Clash>, NoMemory>
    ensures { IfOk result (λ found. (clash : Clash) →
        (found ≡ Some clash) ↔ ((clash.source ≡ source) × IsMissingHere entity.now clash)) }
{
    if !matches!(entity.linkage, Linkage::Internal)
        || !matches!(entity.kind, EntityKind::Function)
    {
        return Ok(None);
    }
    if is_defined(entity) {
        return Ok(None);
    }
    match entity.first_use {
        Some(at) => {
            let name = entity.name.copy()?;
            Ok(Some(Clash {
                source,
                ordinal: at.ordinal,
                spot: at.spot,
                code: Code::NotDefined,
                name,
            }))
        }
        None => Ok(None),
    }
}

/// Puts the clash of an entity of a source to the others, where it has one.
fn push_missing_here(source: u32, entity: &Entity, clashes: &mut Vec<Clash>) -> Result<(), NoMemory>
    ensures { OnOk result (HaveGained clashes.old.items clashes.new.items
        (λ clash. (clash.source ≡ source) × IsMissingHere entity.now clash)) }
{
    match missing_here(source, entity)? {
        Some(clash) => {
            clashes.push(clash)?;
            Ok(())
        }
        None => Ok(()),
    }
}

/// Puts the clashes of the functions of internal linkage of a source to the others.
fn push_missing(source: u32, entities: &[Entity], clashes: &mut Vec<Clash>) -> Result<(), NoMemory>
    ensures { OnOk result (HaveGained clashes.old.items clashes.new.items
        (IsInsideSource source entities.now)) }
{
    for entity in entities {
        push_missing_here(source, entity, clashes)?;
    }
    Ok(())
}

/// The clashes of functions of internal linkage that their source uses and doesn't define: `Code::NotDefined`
/// each (C99 6.9, 3).
pub fn missing_inside(alloc: Global, units: &[TypedUnit]) -> Result<Vec<Clash>, NoMemory>
    requires { length units.now < 2 ^ 32 }
    ensures { IfOk result (λ clashes. (clash : Clash) →
        Contains clashes.items clash ↔ IsMissingInside units.now clash) }
{
    let mut clashes = Vec::new(alloc);
    for source in 0..units.len() as u32 {
        push_missing(source, units[source as usize].entities.list(), &mut clashes)?;
    }
    Ok(clashes)
}
