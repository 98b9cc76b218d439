//! Names of the library's functions that are declared with other types.
ghost use Rattle.std.specs.Prelude.{◌↔◌, IsTrue, IfOk, OnOk};
ghost use Rattle.std.specs.List.{Contains};
ghost use Rattle.lk_link.specs.Clashes.{DiffersFromLibrary};
ghost use Rattle.lk_link.specs.Differing.{type_at};
ghost use Rattle.lk_link.specs.Library.{IsOtherAt, IsOtherClashAt, IsOtherInLibrary};
ghost use Rattle.lk_link.specs.Sites.{AreNames, Grows};
ghost use Rattle.lk_link.specs.Sources.{AreSources, IsTypeOf};
ghost use Rattle.lk_types.specs.Table.{IsKnown};

use crate::again::clash_at;
use crate::clash::Clash;
use crate::library_types::is_type_of;
use crate::names::Names;
use crate::sites::{Site, entity_at};
use lk_base::{Code, Name, NoMemory};
use lk_check_expr::LibraryFunction;
use lk_typed::{TypedUnit, numbers_mean_one_tree};
use lk_types::{TypeId, TypeTable};
use std::alloc::Global;

/// Whether the library has a function of this name, and its type is another than this one.
fn is_other_in_library(types: &TypeTable, t: TypeId, name: &Name) -> bool
    requires { IsKnown types.now t }
    ensures { IsTrue result ↔ IsOtherInLibrary types.now.types t name.now }
{
    types.is_table();
    numbers_mean_one_tree();
    match LibraryFunction::of(name) {
        Some(function) => !is_type_of(types, t, function),
        None => false,
    }
}

/// Whether the library has a function of a declared name, with another type.
fn is_other(units: &[TypedUnit], name: &Name, site: &Site) -> bool
    requires { IsTypeOf units.now (type_at site.now) }
    ensures { IsTrue result ↔ IsOtherAt units.now name.now site.now }
{
    is_other_in_library(&units[site.entity.source as usize].types, site.ty, name)
}

/// Puts a declaration's clash to the others, where the library has a function of the name with another type.
fn push_other(
    units: &[TypedUnit],
    name: &Name,
    site: &Site,
    clashes: &mut Vec<Clash>,
) -> Result<(), NoMemory>
    requires { IsTypeOf units.now (type_at site.now) }
    ensures { OnOk result (Grows clashes.old.items clashes.new.items
        (IsOtherClashAt units.now name.now site.now)) }
{
    if !is_other(units, name, site) {
        return Ok(());
    }
    clashes.push(clash_at(site, Code::TypesDiffer, name)?)?;
    Ok(())
}

/// The clashes of declarations of names that the library has with other types: `Code::TypesDiffer` each
/// (C99 7.1.3, 7.1.4).
pub fn library_differs(
    alloc: Global,
    units: &[TypedUnit],
    names: &Names,
) -> Result<Vec<Clash>, NoMemory>
    requires sources { AreSources units.now }
    requires names { AreNames units.now names.now }
    ensures { IfOk result (λ clashes. (clash : Clash) →
        Contains clashes.items clash ↔ DiffersFromLibrary units.now clash) }
{
    let mut clashes = Vec::new(alloc);
    for site in names.sites() {
        let name = &entity_at(units, site.entity).name;
        push_other(units, name, site, &mut clashes)?;
    }
    Ok(clashes)
}
