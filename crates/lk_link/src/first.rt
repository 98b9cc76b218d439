//! The clash that is told of the sources of a program.
ghost use Rattle.std.specs.Prelude.{◌≡◌, ◌<◌, ◌^◌, ◌++◌, [], length, IfOk, MatchOption};
ghost use Rattle.lk_link.specs.Clashes.{DiffersFrom, IsClash, IsFirstClash, IsFirstOf};
ghost use Rattle.lk_link.specs.First.{AreAll, IsOfDeclarations, IsOfNames, IsUndefined};
ghost use Rattle.lk_link.specs.Sites.{AreNames};
ghost use Rattle.lk_link.specs.Sources.{AreSources};
ghost use Rattle.lk_link.specs.declared.clash.Clash.{Clash};

use crate::absent::not_defined;
use crate::again::defined_twice;
use crate::clash::{Clash, first_told};
use crate::differ::types_differ;
use crate::library::library_differs;
use crate::missing::missing_inside;
use crate::names::Names;
use crate::tags::resolve;
use lk_base::{Name, NoMemory};
use lk_typed::TypedUnit;
use std::alloc::Global;

/// The clashes of two lists.
fn join(mut first: Vec<Clash>, mut second: Vec<Clash>) -> Result<Vec<Clash>, NoMemory>
    ensures { IfOk result (λ both. both.items ≡ first.items ++ second.items) }
{
    first.append(&mut second)?;
    Ok(first)
}

/// The clashes of names that several sources define, or that the library has with other types:
/// `Code::DefinedTwice` and `Code::TypesDiffer`.
fn of_names(alloc: Global, units: &[TypedUnit], names: &Names) -> Result<Vec<Clash>, NoMemory>
    requires sources { AreSources units.now }
    requires names { AreNames units.now names.now }
    ensures { IfOk result (λ clashes. AreAll (IsOfNames units.now) clashes.items) }
{
    let twice = defined_twice(alloc, units, names)?;
    let other = library_differs(alloc, units, names)?;
    let clashes = join(twice, other)?;
    Ok(clashes)
}

/// The clashes of declarations of one name with different types: `Code::TypesDiffer`.
fn of_types(alloc: Global, units: &[TypedUnit], names: &Names) -> Result<Vec<Clash>, NoMemory>
    requires sources { AreSources units.now }
    requires few { length units.now < 2 ^ 32 }
    requires names { AreNames units.now names.now }
    ensures { IfOk result (λ clashes. AreAll (DiffersFrom units.now) clashes.items) }
{
    let becomes = resolve(alloc, units)?;
    types_differ(alloc, units, becomes.as_slice(), names)
}

/// The clashes of declarations: `Code::DefinedTwice` and `Code::TypesDiffer`.
fn of_declarations(
    alloc: Global,
    units: &[TypedUnit],
    names: &Names,
) -> Result<Vec<Clash>, NoMemory>
    requires sources { AreSources units.now }
    requires few { length units.now < 2 ^ 32 }
    requires names { AreNames units.now names.now }
    ensures { IfOk result (λ clashes. AreAll (IsOfDeclarations units.now) clashes.items) }
{
    let by_name = of_names(alloc, units, names)?;
    let by_type = of_types(alloc, units, names)?;
    let clashes = join(by_name, by_type)?;
    Ok(clashes)
}

/// The clashes of names that are used and not defined: `Code::NotDefined`.
fn undefined(
    alloc: Global,
    units: &[TypedUnit],
    names: &Names,
    externs: &[Name],
) -> Result<Vec<Clash>, NoMemory>
    requires few { length units.now < 2 ^ 32 }
    requires names { AreNames units.now names.now }
    ensures { IfOk result (λ clashes. AreAll (IsUndefined units.now externs.now) clashes.items) }
{
    let everywhere = not_defined(alloc, units, names, externs)?;
    let inside = missing_inside(alloc, units)?;
    let clashes = join(everywhere, inside)?;
    Ok(clashes)
}

/// All clashes of the sources with these names: `Code::DefinedTwice`, `Code::TypesDiffer` and
/// `Code::NotDefined`.
fn clashes_of(
    alloc: Global,
    units: &[TypedUnit],
    names: &Names,
    externs: &[Name],
) -> Result<Vec<Clash>, NoMemory>
    requires sources { AreSources units.now }
    requires few { length units.now < 2 ^ 32 }
    requires names { AreNames units.now names.now }
    ensures { IfOk result (λ clashes. AreAll (IsClash units.now externs.now) clashes.items) }
{
    let declared = of_declarations(alloc, units, names)?;
    let undefined = undefined(alloc, units, names, externs)?;
    let clashes = join(declared, undefined)?;
    Ok(clashes)
}

/// All clashes of the sources: `Code::DefinedTwice`, `Code::TypesDiffer` and `Code::NotDefined`.
fn clashes(alloc: Global, units: &[TypedUnit], externs: &[Name]) -> Result<Vec<Clash>, NoMemory>
    requires sources { AreSources units.now }
    requires few { length units.now < 2 ^ 32 }
    ensures { IfOk result (λ clashes. AreAll (IsClash units.now externs.now) clashes.items) }
{
    let names = Names::of(alloc, units)?;
    clashes_of(alloc, units, &names, externs)
}

/// A copy of the clash that is told of these.
fn first_of(clashes: &[Clash]) -> Result<Option<Clash>, NoMemory>
    ensures { IfOk result (λ found. MatchOption found (clashes.now ≡ []) (IsFirstOf clashes.now)) }
{
    match first_told(clashes) {
        Some(clash) => {
            let first = clash.copy()?;
            Ok(Some(first))
        }
        None => Ok(None),
    }
}

/// The clash that is told of the sources of a program, where `externs` has the names of extern functions: of
/// `Code::DefinedTwice`, `Code::TypesDiffer` and `Code::NotDefined` the first by the place of the source,
/// then the number of the node, then that of the code. Nothing where none of them holds.
pub fn first_clash(
    alloc: Global,
    units: &[TypedUnit],
    externs: &[Name],
) -> Result<Option<Clash>, NoMemory>
    requires sources { AreSources units.now }
    requires few { length units.now < 2 ^ 32 }
    ensures { IfOk result (λ found. MatchOption found ((clash : Clash) → IsClash units.now externs.now clash → ⊥)
        (IsFirstClash units.now externs.now)) }
{
    let clashes = clashes(alloc, units, externs)?;
    let first = first_of(clashes.as_slice())?;
    Ok(first)
}
