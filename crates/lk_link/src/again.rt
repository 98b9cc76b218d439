//! Names that several sources define.
ghost use Rattle.std.specs.Prelude.{◌≡◌, ◌<◌, ◌↔◌, IsTrue, IfOk, OnOk};
ghost use Rattle.std.specs.List.{Contains};
ghost use Rattle.lk_base.specs.declared.code.Code.TheVariants.{DefinedTwice};
ghost use Rattle.lk_link.specs.Clashes.{IsDefinedTwice};
ghost use Rattle.lk_link.specs.Sites.{AreNames, Grows, IsAgain, IsDefinedEarlier, IsDefinedBefore, IsAgainAt, clash_of};

use crate::clash::Clash;
use crate::names::Names;
use crate::sites::{Site, entity_at};
use crate::sources::defines;
use lk_base::{Code, Name, NoMemory};
use lk_typed::TypedUnit;
use std::alloc::Global;

/// Whether a declaration defines its name in an earlier source than another one.
fn is_earlier(other: &Site, site: &Site) -> bool
    ensures { IsTrue result ↔ IsDefinedEarlier other.now site.now }
{
    other.entity.source < site.entity.source && defines(other.defines)
}

/// Whether a declaration defines its name in the source of another one, before it.
fn is_before(other: &Site, site: &Site) -> bool
    ensures { IsTrue result ↔ IsDefinedBefore other.now site.now }
{
    other.entity.source == site.entity.source
        && other.ordinal < site.ordinal
        && defines(other.defines)
}

/// Whether a declaration is the first in its source that defines its name, and an
/// earlier source defines it too.
fn is_again(group: &[Site], site: &Site) -> bool
    ensures { IsTrue result ↔ IsAgain group.now site.now }
{
    defines(site.defines)
        && group.iter().any(|other| is_earlier(other, site))
        && !group.iter().any(|other| is_before(other, site))
}

/// A clash at a declaration.
pub(crate) fn clash_at(site: &Site, code: Code, name: &Name) -> Result<Clash, NoMemory>
    ensures { IfOk result (λ clash. clash ≡ clash_of site.now code name.now) }
{
    let name = name.copy()?;
    Ok(Clash {
        source: site.entity.source,
        ordinal: site.ordinal,
        spot: site.spot,
        code,
        name,
    })
}

/// Puts a declaration's clash to the others, where it is the first of its source that defines the name again.
fn push_again(
    name: &Name,
    group: &[Site],
    site: &Site,
    clashes: &mut Vec<Clash>,
) -> Result<(), NoMemory>
    ensures { OnOk result (Grows clashes.old.items clashes.new.items
        (IsAgainAt name.now group.now site.now)) }
{
    if !is_again(group, site) {
        return Ok(());
    }
    clashes.push(clash_at(site, Code::DefinedTwice, name)?)?;
    Ok(())
}

/// The clashes of names that several sources define: `Code::DefinedTwice` each, at the first definition of
/// each later source (C99 6.9, 5).
pub fn defined_twice(
    alloc: Global,
    units: &[TypedUnit],
    names: &Names,
) -> Result<Vec<Clash>, NoMemory>
    requires { AreNames units.now names.now }
    ensures { IfOk result (λ clashes. (clash : Clash) →
        Contains clashes.items clash ↔ IsDefinedTwice units.now clash) }
{
    let mut clashes = Vec::new(alloc);
    for site in names.sites() {
        let name = &entity_at(units, site.entity).name;
        push_again(name, names.group(name), site, &mut clashes)?;
    }
    Ok(clashes)
}
