//! Names that are declared with different types.
ghost use Rattle.std.specs.Prelude.{◌≡◌, ◌↔◌, All, IsTrue, IfOk, OnOk};
ghost use Rattle.std.specs.List.{Contains};
ghost use Rattle.lk_link.specs.Clashes.{DiffersFrom};
ghost use Rattle.lk_link.specs.Differing.{DiffersAt, IsDifferent, IsDifferentAt, type_at};
ghost use Rattle.lk_link.specs.Sites.{AreNames, Grows};
ghost use Rattle.lk_link.specs.Sources.{AreSources, ComesBefore, IsTypeOf};
ghost use Rattle.lk_link.specs.Structs.{AreResolved};

use crate::again::clash_at;
use crate::clash::Clash;
use crate::names::Names;
use crate::place::{StructOf, TypeOf};
use crate::sites::{Site, entity_at};
use crate::structs::are_declared_alike;
use lk_base::{Code, Name, NoMemory, Seq};
use lk_typed::TypedUnit;
use std::alloc::Global;

/// The type of a declaration.
fn type_of(site: &Site) -> TypeOf
    ensures { result ≡ type_at site.now }
{
    TypeOf {
        source: site.entity.source,
        number: site.ty,
    }
}

/// Whether one declaration stands before another: in an earlier source, or earlier in the text.
fn comes_before(other: &Site, site: &Site) -> bool
    ensures { IsTrue result ↔ ComesBefore other.now.entity.source other.now.ordinal
        site.now.entity.source site.now.ordinal }
{
    other.entity.source < site.entity.source
        || (other.entity.source == site.entity.source && other.ordinal < site.ordinal)
}

/// Whether one declaration stands before another one of its name, and has another type.
fn differs(
    alloc: Global,
    units: &[TypedUnit],
    becomes: &[Seq<StructOf>],
    other: &Site,
    site: &Site,
) -> Result<bool, NoMemory>
    requires sources { AreSources units.now }
    requires resolved { AreResolved units.now becomes.now }
    requires first { IsTypeOf units.now (type_at other.now) }
    requires second { IsTypeOf units.now (type_at site.now) }
    ensures { IfOk result (λ answer. IsTrue answer ↔ DiffersAt units.now other.now site.now) }
{
    if !comes_before(other, site) {
        return Ok(false);
    }
    let are_alike = are_declared_alike(alloc, units, becomes, type_of(other), type_of(site))?;
    Ok(!are_alike)
}

/// Whether one of these declarations stands before another one of their name, and has another type.
fn is_different(
    alloc: Global,
    units: &[TypedUnit],
    becomes: &[Seq<StructOf>],
    group: &[Site],
    site: &Site,
) -> Result<bool, NoMemory>
    requires sources { AreSources units.now }
    requires resolved { AreResolved units.now becomes.now }
    requires first { All (λ other. IsTypeOf units.now (type_at other)) group.now }
    requires second { IsTypeOf units.now (type_at site.now) }
    ensures { IfOk result (λ answer. IsTrue answer ↔ IsDifferent units.now group.now site.now) }
{
    for other in group {
        if differs(alloc, units, becomes, other, site)? {
            return Ok(true);
        }
    }
    Ok(false)
}

/// Puts a declaration's clash to the others, where an earlier declaration of the name has another type.
fn push_different(
    alloc: Global,
    units: &[TypedUnit],
    becomes: &[Seq<StructOf>],
    name: &Name,
    group: &[Site],
    site: &Site,
    clashes: &mut Vec<Clash>,
) -> Result<(), NoMemory>
    requires sources { AreSources units.now }
    requires resolved { AreResolved units.now becomes.now }
    requires first { All (λ other. IsTypeOf units.now (type_at other)) group.now }
    requires second { IsTypeOf units.now (type_at site.now) }
    ensures { OnOk result (Grows clashes.old.items clashes.new.items
        (IsDifferentAt units.now name.now group.now site.now)) }
{
    if !is_different(alloc, units, becomes, group, site)? {
        return Ok(());
    }
    clashes.push(clash_at(site, Code::TypesDiffer, name)?)?;
    Ok(())
}

/// The clashes of declarations of one name with different types: `Code::TypesDiffer` each, at the later
/// declaration (C99 6.2.7, 2).
///
/// `becomes` tells of each struct of each source what it is in the program, as `resolve` gives it.
pub fn types_differ(
    alloc: Global,
    units: &[TypedUnit],
    becomes: &[Seq<StructOf>],
    names: &Names,
) -> Result<Vec<Clash>, NoMemory>
    requires sources { AreSources units.now }
    requires resolved { AreResolved units.now becomes.now }
    requires names { AreNames units.now names.now }
    ensures { IfOk result (λ clashes. (clash : Clash) →
        Contains clashes.items clash ↔ DiffersFrom units.now clash) }
{
    let mut clashes = Vec::new(alloc);
    for site in names.sites() {
        let name = &entity_at(units, site.entity).name;
        push_different(
            alloc,
            units,
            becomes,
            name,
            names.group(name),
            site,
            &mut clashes,
        )?;
    }
    Ok(clashes)
}
