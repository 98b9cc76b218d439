//! A source (C99 6.9).
ghost use Rattle.std.specs.Prelude.{◌≡◌, All, IfOk, IsTrue, List, OnOk};
ghost use Rattle.lk_typed.specs.Elements.{HasFewElements};
ghost use Rattle.lk_typed.specs.Env.{Name};
ghost use Rattle.lk_typed.specs.Meaning.{IsReady};
ghost use Rattle.lk_typed.specs.TypedUnits.{IsTypedUnit};
ghost use Rattle.lk_elaborator.specs.Beginning.{Begins};
ghost use Rattle.lk_elaborate.specs.Checked.{IsCheckedOf};
ghost use Rattle.lk_elaborate.specs.Externals.{MakesExternal, MakesExternals};
ghost use Rattle.lk_elaborate.specs.Finishing.{HasWholeStructs, IsFinishedOf, IsTreeOf, IsUnitOf, IsWhole};
ghost use Rattle.lk_elaborate.specs.Outlining.{HasNoLocals};
ghost use Rattle.lk_elaborate.specs.Outside.{GoesOutside};

use crate::beside::beside;
use crate::declarations::file_declaration;
use crate::definitions::definition;
use lk_base::{NoMemory, Seq};
use lk_checker::Checked;
use lk_elaborator::{Elaborator, Entities, Locals, SourceTypes, nowhere};
use lk_found::Records;
use lk_tree::{Decl, Unit};
use lk_typed::{Body, Entity, Members, StaticObject, TypedUnit};
use lk_types::TypeTable;
use std::alloc::Global;

/// Begins what has locals of its own.
fn begin_locals(walk: &mut Elaborator)
    ensures same { walk.new ≡ record walk.old { locals = walk.new.locals } }
    ensures none { HasNoLocals walk.new }
{
    walk.locals = Locals::new(walk.alloc);
}

/// An external declaration.
fn external(walk: &mut Elaborator, d: &Decl) -> Result<(), NoMemory>
    ensures makes { OnOk result (MakesExternal walk.old walk.new d.now) }
    ensures goes { OnOk result (GoesOutside walk.old walk.new) }
{
    match d {
        Decl::Function(node) => {
            begin_locals(walk);
            definition(walk, node)?;
            Ok(())
        }
        Decl::Declare(node) => {
            file_declaration(walk, node)?;
            Ok(())
        }
        Decl::Empty(_) => Ok(()),
    }
}

/// The entities of a source, and its types with the composites of theirs.
#[derive(Drop)]
struct Finished {
    types: TypeTable,
    entities: Vec<Entity>,
}

/// The entities of a source, by the end of it. No list of the parts of `void` was given yet.
fn finish(types: SourceTypes, entities: Entities, records: &Records) -> Result<Finished, NoMemory>
    ensures { IfOk result (IsFinishedOf types entities records.now) }
{
    let mut types = types.into_table();
    let entities = entities.into_list(&mut types, records)?;
    if !types.parts().is_empty() {
        return Err(nowhere());
    }
    Ok(Finished { types, entities })
}

/// The external declarations of a source, in the order of the text.
fn externals(walk: &mut Elaborator, list: &[Decl]) -> Result<(), NoMemory>
    ensures makes { OnOk result (MakesExternals walk.old walk.new list.now) }
    ensures goes { OnOk result (GoesOutside walk.old walk.new) }
{
    for d in list {
        external(walk, d)?;
    }
    Ok(())
}

/// The state behind the external declarations of a source.
fn all_externals(mut walk: Elaborator, list: &[Decl]) -> Result<Elaborator, NoMemory>
    ensures makes { IfOk result (λ behind. MakesExternals walk behind list.now) }
    ensures goes { IfOk result (λ behind. GoesOutside walk behind) }
{
    let made = externals(&mut walk, list);
    made.and(Ok(walk))
}

/// What is made of a source beside its types and entities, and what was found of it.
#[derive(Drop)]
struct Rest {
    records: Records,
    objects: Seq<StaticObject>,
    bodies: Seq<Body>,
}

/// What was made of a source, in parts.
fn in_parts(walk: Elaborator) -> (SourceTypes, Entities, Rest)
    ensures types { result.0 ≡ walk.types }
    ensures entities { result.1 ≡ walk.entities }
    ensures records { result.2.records ≡ walk.records }
    ensures objects { result.2.objects ≡ walk.objects.items }
    ensures bodies { result.2.bodies ≡ walk.bodies.items }
{
    let Elaborator {
        types,
        records,
        entities,
        objects,
        bodies,
        ..
    } = walk;
    let rest = Rest {
        records,
        objects: Seq::new(objects),
        bodies: Seq::new(bodies),
    };
    (types, entities, rest)
}

/// The typed tree of these parts.
fn unit_of(types: SourceTypes, entities: Entities, rest: Rest) -> Result<TypedUnit, NoMemory>
    ensures { IfOk result (IsUnitOf types entities rest.records rest.objects rest.bodies) }
{
    let made = finish(types, entities, &rest.records);
    let (finished, rest) = beside(made, rest)?;
    let Finished { types, entities } = finished;
    let Rest {
        records,
        objects,
        bodies,
    } = rest;
    Ok(TypedUnit {
        types,
        structs: Seq::new(records.tags()),
        entities: Seq::new(entities),
        objects,
        bodies,
    })
}

/// What was made of a source.
fn typed_unit(walk: Elaborator) -> Result<TypedUnit, NoMemory>
    ensures { IfOk result (IsTreeOf walk) }
{
    let (types, entities, rest) = in_parts(walk);
    unit_of(types, entities, rest)
}

/// Whether a struct is complete, or was never defined.
fn is_whole(members: &Members) -> bool
    ensures { IsTrue result → IsWhole members.now }
{
    match members {
        Members::NotYet | Members::Known(_) => true,
        Members::Begun | Members::Faulty => false,
    }
}

/// Whether all are: no definition of a struct is open or faulty behind a source without a fault.
fn are_whole(structs: &[Members]) -> bool
    ensures { IsTrue result → All IsWhole structs.now }
{
    for members in structs {
        if !is_whole(members) {
            return false;
        }
    }
    true
}

/// That each struct of a source has its tag, and is complete or was never defined. So
/// it is where there is no fault.
fn ensure_whole_structs(checked: &Checked) -> Result<(), NoMemory>
    ensures { OnOk result (HasWholeStructs checked.now) }
{
    let structs = checked.names.structs();
    if checked.records.tag_count() == structs.len() && are_whole(structs) {
        Ok(())
    } else {
        Err(nowhere())
    }
}

/// The state before the typed tree of a source is made of which this was found.
fn begin(alloc: Global, checked: Checked) -> Result<Elaborator, NoMemory>
    requires ready { IsReady checked.types }
    requires few { HasFewElements checked.types }
    ensures whole { OnOk result (HasWholeStructs checked) }
    ensures begins { IfOk result (Begins checked) }
{
    let whole = ensure_whole_structs(&checked);
    whole.and(Ok(Elaborator::new(alloc, checked)))
}

/// The typed tree of a source in which there is no fault, and of which this was found (`IsTypedUnit`).
///
/// `Err` comes for want of memory, and where a test of what was found fails, which is not expected of a
/// source without a fault.
pub fn elaborate(alloc: Global, unit: &Unit, checked: Checked) -> Result<TypedUnit, NoMemory>
    requires ready { IsReady checked.types }
    requires few { HasFewElements checked.types }
    ensures { IfOk result (λ typed. (externs : List Name) →
        IsCheckedOf externs unit.now checked → IsTypedUnit externs unit.now typed) }
{
    let walk = begin(alloc, checked)?;
    let walk = all_externals(walk, unit.externals.list())?;
    let typed = typed_unit(walk)?;
    Ok(typed)
}
