//! The declarations of names of external linkage in all sources.
ghost use Rattle.std.specs.Prelude.{◌≡◌, ◌<◌, ◌^◌, length, OnOk, IfOk};
ghost use Rattle.lk_link.specs.Sites.{Grows, IsOfSome, IsExternalAt, IsExternalOf, IsSiteAt, AreExternals, AreSites, site_of};
ghost use Rattle.lk_link.specs.Sources.{IsEntity};
ghost use Rattle.lk_typed.specs.declared.entity.Entity.{Entity};

use lk_base::{NoMemory, Spot};
use lk_typed::{Declaration, Defines, Entity, Linkage, TypedUnit};
use lk_types::TypeId;
use std::alloc::Global;

/// An entity of a source.
#[derive(Clone, Copy)]
pub struct EntityOf {
    /// The source, in the order of the command from 0 on.
    pub source: u32,
    /// Its number among the entities of the source.
    pub number: usize,
}

/// A declaration of an entity of a source.
#[derive(Clone, Copy)]
pub struct Site {
    pub entity: EntityOf,
    /// The number of the node at which the name stands.
    pub ordinal: u32,
    /// The place of that node.
    pub spot: Spot,
    /// The declared type, in the table of the source.
    pub ty: TypeId,
    pub defines: Defines,
}

/// The entity at a place of the sources.
pub(crate) fn entity_at(units: &[TypedUnit], at: EntityOf) -> &Entity
    requires { (entity : Entity) × IsEntity units.now at.source at.number entity }
    ensures { IsEntity units.now at.source at.number result.now }
{
    &units[at.source as usize].entities.list()[at.number]
}

/// Puts an entity to the others, where it has external linkage.
fn push_external(at: EntityOf, entity: &Entity, all: &mut Vec<EntityOf>) -> Result<(), NoMemory>
    ensures { OnOk result (Grows all.old.items all.new.items
        (IsExternalAt at.source at.number entity.now)) }
{
    if !matches!(entity.linkage, Linkage::External) {
        return Ok(());
    }
    all.push(at)?;
    Ok(())
}

/// Puts the entities of external linkage of a source to the others.
fn push_externals(source: u32, entities: &[Entity], all: &mut Vec<EntityOf>) -> Result<(), NoMemory>
    ensures { OnOk result (Grows all.old.items all.new.items (IsExternalOf source entities.now)) }
{
    for number in 0..entities.len() {
        push_external(EntityOf { source, number }, &entities[number], all)?;
    }
    Ok(())
}

/// The entities of external linkage, source by source.
pub(crate) fn externals(alloc: Global, units: &[TypedUnit]) -> Result<Vec<EntityOf>, NoMemory>
    requires { length units.now < 2 ^ 32 }
    ensures { IfOk result (λ all. AreExternals units.now all.items) }
{
    let mut all = Vec::new(alloc);
    for source in 0..units.len() as u32 {
        push_externals(source, units[source as usize].entities.list(), &mut all)?;
    }
    Ok(all)
}

/// A declaration of an entity.
fn site_at(entity: EntityOf, declaration: &Declaration) -> Site
    ensures { result ≡ site_of entity declaration.now }
{
    Site {
        entity,
        ordinal: declaration.ordinal,
        spot: declaration.spot,
        ty: declaration.ty,
        defines: declaration.defines,
    }
}

/// Puts the declarations of an entity to the others.
fn push_sites(
    entity: EntityOf,
    declarations: &[Declaration],
    all: &mut Vec<Site>,
) -> Result<(), NoMemory>
    ensures { OnOk result (Grows all.old.items all.new.items (IsOfSome (IsSiteAt entity) declarations.now)) }
{
    for declaration in declarations {
        all.push(site_at(entity, declaration))?;
    }
    Ok(())
}

/// The declarations of these entities, which are all of external linkage.
pub(crate) fn sites(
    alloc: Global,
    units: &[TypedUnit],
    externals: &[EntityOf],
) -> Result<Vec<Site>, NoMemory>
    requires { AreExternals units.now externals.now }
    ensures { IfOk result (λ all. AreSites units.now all.items) }
{
    let mut all = Vec::new(alloc);
    for entity in externals {
        let declarations = entity_at(units, *entity).declarations.list();
        push_sites(*entity, declarations, &mut all)?;
    }
    Ok(all)
}
