//! Declarations (C99 6.7).
ghost use Rattle.std.specs.Prelude.{◌≡◌, ◌∷◌, [], nat_eq, IfOk, OnOk, Some, length};
ghost use Rattle.std.specs.Map.{lookup};
ghost use Rattle.lk_typed.specs.DeclarationRules.{AtFile, InBlock};
ghost use Rattle.lk_typed.specs.Env.{Env};
ghost use Rattle.lk_typed.specs.Expressions.{declarator_found};
ghost use Rattle.lk_typed.specs.Nodes.{ADeclaration, at};
ghost use Rattle.lk_found.specs.Named as words;
ghost use Rattle.lk_elaborator.specs.Leading.{GoesOn, Grows};
ghost use Rattle.lk_elaborate.specs.Declaring.{MakesDeclarator, MakesNamed, MakesOneInit, MakesRecorded};
ghost use Rattle.lk_elaborate.specs.DefinitionSteps.{IsTypeRecorded};
ghost use Rattle.lk_elaborate.specs.Making.{MakesDeclaration};
ghost use Rattle.lk_elaborate.specs.Putting.{PutsIn, PutsOutside};
ghost use Rattle.lk_elaborate.specs.PuttingDeclared.{HasBodyFor, PutsAutomatic, PutsDeclaration};
ghost use Rattle.lk_elaborate.specs.PuttingDeclared.{PutsDeclarator, PutsEntity, PutsInitialised};
ghost use Rattle.lk_elaborate.specs.PuttingDeclared.{PutsInitialisedAs, PutsNamed, PutsRecorded};

use crate::local_inits::local_init;
use crate::statics::put_static_object;
use lk_base::{NoMemory, Seq};
use lk_check_decl::Scope;
use lk_elaborator::{Elaborator, NamedEntity, nowhere, put_local};
use lk_found::{DeclaredHere, DeclaredName, declared_name};
use lk_tree::{Declarator, Declare, Init, InitDeclarator};
use lk_typed::{Duration, EntityKind, Linkage, LocalInit, Meaning};
use lk_types::TypeId;
use std::alloc::Global;

/// The name that a declarator of a declaration declares. There is one where no fault is.
pub(crate) fn name_in(d: &Declarator) -> Result<DeclaredName<'_>, NoMemory>
    ensures { IfOk result (λ named. (declarator_found d.now).name ≡ Some (words.name_in named)) }
{
    match declared_name(d) {
        Some(named) => Ok(named),
        None => Err(nowhere()),
    }
}

/// What the node of a name with this number declared.
fn declared_at(walk: &Elaborator, ordinal: u32) -> Result<DeclaredHere, NoMemory>
    ensures { IfOk result (λ here. lookup (nat_eq ordinal) walk.now.records.declared ≡ Some here) }
{
    match walk.records.declared(ordinal) {
        Some(declared) => Ok(declared),
        None => Err(nowhere()),
    }
}

/// The number of the body that is made.
fn this_body(walk: &Elaborator) -> Result<u32, NoMemory>
    ensures { IfOk result (λ number. number ≡ length walk.now.bodies.items) }
{
    match u32::try_from(walk.bodies.len()) {
        Ok(number) => Ok(number),
        Err(_) => Err(NoMemory),
    }
}

/// The body in which a name without linkage stands. There is none at file scope.
fn own_body(walk: &Elaborator, scope: Scope) -> Result<Option<u32>, NoMemory>
    ensures { IfOk result (HasBodyFor scope walk.now Linkage.None) }
{
    match scope {
        Scope::Block => Ok(Some(this_body(walk)?)),
        Scope::File => Err(nowhere()),
    }
}

/// The body in which a name of this linkage stands, where it is a `static` object of a block (`HasBody`). At
/// file scope the name of an entity has a linkage.
fn body_of(walk: &Elaborator, scope: Scope, linkage: Linkage) -> Result<Option<u32>, NoMemory>
    ensures { IfOk result (HasBodyFor scope walk.now linkage) }
{
    match linkage {
        Linkage::None => own_body(walk, scope),
        Linkage::External | Linkage::Internal => Ok(None),
    }
}

/// Puts a name that is an entity.
fn put_entity(
    walk: &mut Elaborator,
    scope: Scope,
    named: &DeclaredName<'_>,
    kind: EntityKind,
    declared: &DeclaredHere,
) -> Result<(), NoMemory>
    ensures puts { OnOk result (PutsEntity scope walk.old walk.new named.now kind declared.now) }
    ensures goes_on { OnOk result (GoesOn walk.old walk.new) }
{
    let body = body_of(walk, scope, declared.linkage)?;
    let name = named.name.copy()?;
    let entity = NamedEntity {
        name,
        linkage: declared.linkage,
        kind,
        spot: named.at.spot,
        ordinal: named.at.ordinal,
        ty: declared.ty,
        defines: declared.defines,
        body,
    };
    walk.entities.declare(entity)?;
    Ok(())
}

/// Puts a name that is a local of this type. There is none at file scope.
fn put_automatic(
    walk: &mut Elaborator,
    scope: Scope,
    named: &DeclaredName<'_>,
    ty: TypeId,
) -> Result<(), NoMemory>
    ensures puts { OnOk result (PutsAutomatic walk.old walk.new named.now ty) }
    ensures goes_on { OnOk result (GoesOn walk.old walk.new) }
{
    match scope {
        Scope::File => Err(nowhere()),
        Scope::Block => {
            let name = named.name.copy()?;
            put_local(walk, name, ty, named.at.spot, named.at.ordinal)?;
            Ok(())
        }
    }
}

/// Puts a name that is an entity or a local, as it was declared.
fn put_declared(
    walk: &mut Elaborator,
    scope: Scope,
    named: &DeclaredName<'_>,
    declared: &DeclaredHere,
) -> Result<(), NoMemory>
    ensures puts { OnOk result (PutsNamed scope walk.old walk.new named.now declared.now) }
    ensures goes_on { OnOk result (GoesOn walk.old walk.new) }
{
    match declared.meaning {
        Meaning::Object(_, Duration::Static) => {
            put_entity(walk, scope, named, EntityKind::Object, declared)?;
            Ok(())
        }
        Meaning::Object(t, Duration::Automatic) => {
            put_automatic(walk, scope, named, t)?;
            Ok(())
        }
        Meaning::Function(_) => {
            put_entity(walk, scope, named, EntityKind::Function, declared)?;
            Ok(())
        }
        Meaning::Typedef(_) => Ok(()),
        Meaning::Enumerator(_) | Meaning::InitialiserWord(_) | Meaning::Faulty => Err(nowhere()),
    }
}

/// Puts a name that is an entity or a local, as its node declared it.
pub(crate) fn put_name(
    walk: &mut Elaborator,
    scope: Scope,
    named: &DeclaredName<'_>,
) -> Result<(), NoMemory>
    ensures puts { OnOk result (PutsRecorded scope walk.old walk.new named.now) }
    ensures goes_on { OnOk result (GoesOn walk.old walk.new) }
{
    match declared_at(walk, named.at.ordinal) {
        Ok(declared) => {
            put_declared(walk, scope, named, &declared)?;
            Ok(())
        }
        Err(NoMemory) => Err(NoMemory),
    }
}

/// The type that the node of a name with this number declared.
pub(crate) fn declared_type(walk: &Elaborator, ordinal: u32) -> Result<TypeId, NoMemory>
    ensures { IfOk result (IsTypeRecorded walk.now ordinal) }
{
    match declared_at(walk, ordinal) {
        Ok(declared) => Ok(declared.ty),
        Err(NoMemory) => Err(NoMemory),
    }
}

/// The initialiser of an object of automatic storage that was declared.
fn initialised_local(
    walk: &mut Elaborator,
    ordinal: u32,
    ty: TypeId,
    init: &Init,
    inits: &mut Seq<LocalInit>,
) -> Result<(), NoMemory>
    ensures makes { OnOk result (MakesOneInit walk.old walk.new ordinal ty init.now inits.old inits.new) }
    ensures grows { OnOk result (Grows walk.old walk.new) }
    ensures goes_on { OnOk result (GoesOn walk.old walk.new) }
{
    let given = local_init(walk, ordinal, ty, init)?;
    inits.push(given)?;
    Ok(())
}

/// The initialiser of an object that was declared so: a local among them is put.
fn initialised_as(
    walk: &mut Elaborator,
    named: &DeclaredName<'_>,
    declared: &DeclaredHere,
    init: &Init,
    inits: &mut Seq<LocalInit>,
) -> Result<(), NoMemory>
    ensures makes { OnOk result (MakesRecorded walk.old walk.new named.now declared.now init.now
        inits.old inits.new) }
    ensures puts { OnOk result (PutsInitialisedAs walk.old walk.new named.now declared.now init.now) }
    ensures goes_on { OnOk result (GoesOn walk.old walk.new) }
{
    match declared.meaning {
        Meaning::Object(_, Duration::Static) => {
            put_static_object(walk, named.at, declared.ty, init)?;
            Ok(())
        }
        Meaning::Object(_, Duration::Automatic) => {
            initialised_local(walk, named.at.ordinal, declared.ty, init, inits)?;
            Ok(())
        }
        Meaning::Function(_)
        | Meaning::Typedef(_)
        | Meaning::Enumerator(_)
        | Meaning::InitialiserWord(_)
        | Meaning::Faulty => Err(nowhere()),
    }
}

/// The initialiser of an object, as its node declared it.
fn initialised(
    walk: &mut Elaborator,
    named: &DeclaredName<'_>,
    init: &Init,
    inits: &mut Seq<LocalInit>,
) -> Result<(), NoMemory>
    ensures makes { OnOk result (MakesNamed walk.old walk.new named.now init.now inits.old inits.new) }
    ensures puts { OnOk result (PutsInitialised walk.old walk.new named.now init.now) }
    ensures goes_on { OnOk result (GoesOn walk.old walk.new) }
{
    match declared_at(walk, named.at.ordinal) {
        Ok(declared) => {
            initialised_as(walk, named, &declared, init, inits)?;
            Ok(())
        }
        Err(NoMemory) => Err(NoMemory),
    }
}

/// A declarator of a declaration, with its initialiser.
fn init_declarator(
    walk: &mut Elaborator,
    scope: Scope,
    d: &InitDeclarator,
    inits: &mut Seq<LocalInit>,
) -> Result<(), NoMemory>
    ensures makes { OnOk result (MakesDeclarator walk.old walk.new d.now inits.old inits.new) }
    ensures puts { OnOk result (PutsDeclarator scope walk.old walk.new d.now) }
    ensures goes_on { OnOk result (GoesOn walk.old walk.new) }
{
    let named = name_in(&d.declarator)?;
    put_name(walk, scope, &named)?;
    match &d.init {
        Some(init) => {
            initialised(walk, &named, init, inits)?;
            Ok(())
        }
        None => Ok(()),
    }
}

/// No initialiser.
fn no_inits(alloc: Global) -> Seq<LocalInit>
    ensures { result ≡ [] }
{
    Seq::new(Vec::new(alloc))
}

/// A declaration: those of its locals that it gives a value.
fn declared(walk: &mut Elaborator, scope: Scope, node: &Declare) -> Result<Seq<LocalInit>, NoMemory>
    ensures makes { IfOk result (MakesDeclaration walk.old walk.new node.now) }
    ensures puts { OnOk result (PutsDeclaration scope walk.old walk.new node.now) }
    ensures goes_on { OnOk result (GoesOn walk.old walk.new) }
{
    let mut inits = no_inits(walk.alloc);
    for d in node.declarators.list() {
        init_declarator(walk, scope, d, &mut inits)?;
    }
    Ok(inits)
}

/// A declaration in a block: those of its locals that it gives a value (`IsBlockDeclaration`).
pub(crate) fn block_declaration(
    walk: &mut Elaborator,
    node: &Declare,
) -> Result<Seq<LocalInit>, NoMemory>
    ensures makes { IfOk result (MakesDeclaration walk.old walk.new node.now) }
    ensures puts { OnOk result ((env : Env) →
        PutsIn walk.old walk.new (at env (ADeclaration InBlock node.now) ∷ [])) }
    ensures goes_on { OnOk result (GoesOn walk.old walk.new) }
{
    let inits = declared(walk, Scope::Block, node)?;
    Ok(inits)
}

/// A declaration at file scope. No object there is a local.
pub(crate) fn file_declaration(walk: &mut Elaborator, node: &Declare) -> Result<(), NoMemory>
    ensures puts { OnOk result ((env : Env) →
        PutsOutside walk.old walk.new (at env (ADeclaration AtFile node.now) ∷ [])) }
    ensures goes_on { OnOk result (GoesOn walk.old walk.new) }
{
    let _inits = declared(walk, Scope::File, node)?;
    Ok(())
}
