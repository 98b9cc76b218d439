//! Names of external linkage that are used and that nothing defines.
ghost use Rattle.std.specs.Prelude.{◌≡◌, ◌↔◌, ℕ, List, None, IsTrue, IfOk, OnOk, MatchOption};
ghost use Rattle.std.specs.List.{Any, Contains};
ghost use Rattle.lk_link.specs.Absent.{AreListed, AreUsers, IsAbsent, IsAbsentAt, IsListedElsewhere, IsNoted};
ghost use Rattle.lk_link.specs.Clashes.{IsMissing};
ghost use Rattle.lk_link.specs.Sites.{AreExternals, AreNames, Grows};
ghost use Rattle.lk_link.specs.Sources.{IsDefining};
ghost use Rattle.lk_typed.specs.Library as spec;

use crate::clash::Clash;
use crate::leasts::Leasts;
use crate::names::Names;
use crate::sites::{EntityOf, Site, entity_at};
use crate::sources::defines;
use lk_base::{Code, Name, NoMemory};
use lk_check_expr::LibraryFunction;
use lk_typed::{Entity, EntityKind, TypedUnit};
use std::alloc::Global;

/// Notes that a source uses an entity's name, where it does.
fn note_use(source: u32, entity: &Entity, users: &mut Leasts) -> Result<(), NoMemory>
    ensures { OnOk result (MatchOption entity.now.first_use (users.new ≡ users.old)
        (λ _. IsNoted users.old users.new entity.now.name source)) }
{
    match entity.first_use {
        Some(_) => {
            users.note(&entity.name, source)?;
            Ok(())
        }
        None => Ok(()),
    }
}

/// Of each name of external linkage the first source that uses it.
fn users(alloc: Global, units: &[TypedUnit], externals: &[EntityOf]) -> Result<Leasts, NoMemory>
    requires { AreExternals units.now externals.now }
    ensures { IfOk result (AreUsers units.now) }
{
    let mut users = Leasts::new(alloc);
    for at in externals {
        note_use(at.source, entity_at(units, *at), &mut users)?;
    }
    Ok(users)
}

/// Whether the library has a function of this name.
fn is_library(name: &Name) -> bool
    ensures { IsTrue result ↔ (spec.library_function name.now ≡ None → ⊥) }
{
    LibraryFunction::of(name).is_some()
}

/// Whether the library has an entity's name, or it is a function that the list of extern functions has.
fn is_elsewhere(externs: &Leasts, entity: &Entity) -> bool
    ensures { IsTrue result ↔ IsListedElsewhere externs.now entity.now }
{
    is_library(&entity.name)
        || (matches!(entity.kind, EntityKind::Function) && externs.find(&entity.name).is_some())
}

/// Whether one of these declarations defines its name.
fn is_one_defining(group: &[Site]) -> bool
    ensures { IsTrue result ↔ Any (λ site. IsDefining site.defines) group.now }
{
    group.iter().any(|site| defines(site.defines))
}

/// Whether nothing defines an entity's name, and no earlier source uses it.
fn is_absent(group: &[Site], users: &Leasts, externs: &Leasts, source: u32, entity: &Entity) -> bool
    ensures { IsTrue result ↔ IsAbsent group.now users.now externs.now source entity.now }
{
    if is_one_defining(group) {
        return false;
    }
    if is_elsewhere(externs, entity) {
        return false;
    }
    match users.find(&entity.name) {
        Some(first) => first >= source,
        None => true,
    }
}

/// Puts an entity's clash to the others, where its source is the first that uses its
/// name, and nothing defines it.
fn push_absent(
    group: &[Site],
    users: &Leasts,
    externs: &Leasts,
    source: u32,
    entity: &Entity,
    clashes: &mut Vec<Clash>,
) -> Result<(), NoMemory>
    ensures { OnOk result (Grows clashes.old.items clashes.new.items
        (IsAbsentAt group.now users.now externs.now source entity.now)) }
{
    match entity.first_use {
        Some(at) => {
            if !is_absent(group, users, externs, source, entity) {
                return Ok(());
            }
            let name = entity.name.copy()?;
            clashes.push(Clash {
                source,
                ordinal: at.ordinal,
                spot: at.spot,
                code: Code::NotDefined,
                name,
            })?;
            Ok(())
        }
        None => Ok(()),
    }
}

/// The clashes of names of external linkage, where of each name the first source that uses it is known.
fn clashes_of(
    alloc: Global,
    units: &[TypedUnit],
    names: &Names,
    users: &Leasts,
    externs: &Leasts,
) -> Result<Vec<Clash>, NoMemory>
    requires names { AreNames units.now names.now }
    requires users { AreUsers units.now users.now }
    ensures { IfOk result (λ clashes. (list : List (List ℕ)) → AreListed list externs.now → (clash : Clash) →
        Contains clashes.items clash ↔ IsMissing units.now list clash) }
{
    let mut clashes = Vec::new(alloc);
    for at in names.externals() {
        let entity = entity_at(units, *at);
        let group = names.group(&entity.name);
        push_absent(group, users, externs, at.source, entity, &mut clashes)?;
    }
    Ok(clashes)
}

/// The clashes of names of external linkage that are used and that no source defines, nor the library, nor
/// the list of extern functions: `Code::NotDefined` each, at the first use (C99 6.9, 5).
pub fn not_defined(
    alloc: Global,
    units: &[TypedUnit],
    names: &Names,
    externs: &[Name],
) -> Result<Vec<Clash>, NoMemory>
    requires { AreNames units.now names.now }
    ensures { IfOk result (λ clashes. (clash : Clash) →
        Contains clashes.items clash ↔ IsMissing units.now externs.now clash) }
{
    let users = users(alloc, units, names.externals())?;
    let listed = Leasts::of_list(alloc, externs)?;
    clashes_of(alloc, units, names, &users, &listed)
}
