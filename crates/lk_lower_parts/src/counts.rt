//! The numbers of the program's functions, and the declarations and definitions of entities.
ghost use Rattle.std.specs.Prelude.{◌≡◌, ◌<◌, ◌+◌, IfOk, Some, length, set, slice_get};
ghost use Rattle.std.specs.List.{find};
ghost use Rattle.std.specs.Option.{option_copied};
ghost use Rattle.lk_lower_expr.specs.Lowering as lowering;
ghost use Rattle.lk_lower_parts.specs.FunctionNumbers.{AreFunctionNumbers, AreOfEntities};
ghost use Rattle.lk_lower_parts.specs.Sources.{defined_by, defined_of};
ghost use Rattle.lk_lower_parts.specs.Wholes.{HaveEntities, IsDeclaredHere, IsWhole};

use lk_base::{NoMemory, Seq};
use lk_typed::{Declaration, Defines, Entity, Linked, Whole};
use std::alloc::Global;

/// The numbers of the functions of the sources: those of the bodies, in the order of
/// the sources and of the text.
#[derive(Drop)]
pub struct FunctionNumbers {
    /// Of each source the number of the function of its first body, and behind them
    /// how many functions there are.
    pub first: Seq<u32>,
    /// Of each entity of each source the number of the function whose body it has; the number behind those of
    /// its source where it has none.
    pub of_entities: Seq<Seq<u32>>,
    /// How many functions there are.
    pub count: u32,
}

/// How many things there are. No list of a source is so long that it has no such number, since each
/// thing in it has its own text.
pub(crate) fn count_of(len: usize) -> Result<u32, NoMemory>
    ensures { IfOk result (λ count. count ≡ len) }
{
    if len > u32::MAX as usize {
        return Err(NoMemory);
    }
    Ok(len as u32)
}

/// The number behind some others.
pub(crate) fn behind(next: u32, count: u32) -> Result<u32, NoMemory>
    ensures { IfOk result (λ on. on ≡ next + count) }
{
    next.checked_add(count).ok_or(NoMemory)
}

/// Gives an entity its function.
fn give(row: &mut Vec<u32>, entity: u32, function: u32)
    requires { entity < length row.old.items }
    ensures { row.new.items ≡ set row.old.items entity function }
{
    row[entity as usize] = function;
}

/// The functions of the entities of a source, where that of its first body has a number. Of several bodies of
/// an entity the first counts, which is given last.
fn of_source(alloc: Global, linked: &Linked, first: u32) -> Result<Seq<u32>, NoMemory>
    requires { HaveEntities linked.now }
    ensures { IfOk result (AreOfEntities first (first + length linked.now.unit.bodies)
        linked.now.unit.bodies) }
{
    let bodies = linked.unit.bodies.list();
    let none = behind(first, count_of(bodies.len())?)?;
    let mut row = vec![in alloc; none; linked.unit.entities.len()]?;
    for k in 0..bodies.len() {
        let b = bodies.len() - 1 - k;
        let function = behind(first, count_of(b)?)?;
        give(&mut row, bodies[b].entity, function);
    }
    Ok(Seq::new(row))
}

/// The numbers of the program's functions.
pub fn number_functions(alloc: Global, whole: &Whole) -> Result<FunctionNumbers, NoMemory>
    requires { IsWhole whole.now }
    ensures { IfOk result (AreFunctionNumbers whole.now.sources) }
{
    let mut first = Vec::new(alloc);
    let mut of_entities = Vec::new(alloc);
    let mut next = 0;
    for linked in whole.sources.list() {
        let row = of_source(alloc, linked, next)?;
        of_entities.push(row)?;
        first.push(next)?;
        let bodies = count_of(linked.unit.bodies.len())?;
        next = behind(next, bodies)?;
    }
    first.push(next)?;
    Ok(FunctionNumbers {
        first: Seq::new(first),
        of_entities: Seq::new(of_entities),
        count: next,
    })
}

/// Whether a declaration has a body or an initialiser.
fn is_whole(declaration: &Declaration) -> bool
    ensures { result ≡ lowering.is_whole declaration.now.defines }
{
    match declaration.defines {
        Defines::Whole => true,
        Defines::Nothing | Defines::Tentative => false,
    }
}

/// Whether a declaration is a definition of an object without an initialiser.
fn is_tentative(declaration: &Declaration) -> bool
    ensures { result ≡ lowering.is_tentative declaration.now.defines }
{
    match declaration.defines {
        Defines::Tentative => true,
        Defines::Nothing | Defines::Whole => false,
    }
}

/// The declaration with a body or an initialiser.
fn whole_among(list: &[Declaration]) -> Option<&Declaration>
    ensures { option_copied result ≡ find (λ is. lowering.is_whole is.defines) list.now }
{
    for declaration in list {
        if is_whole(declaration) {
            return Some(declaration);
        }
    }
    None
}

/// The first tentative definition.
fn tentative_among(list: &[Declaration]) -> Option<&Declaration>
    ensures { option_copied result ≡ find (λ is. lowering.is_tentative is.defines) list.now }
{
    for declaration in list {
        if is_tentative(declaration) {
            return Some(declaration);
        }
    }
    None
}

/// Of several declarations of an entity the one with a body or an initialiser counts, else the first
/// tentative definition, else the first (C99 6.9, 5; 6.9.2, 2).
pub fn declaration_of(entity: &Entity) -> Option<&Declaration>
    ensures { option_copied result ≡ lowering.declaration_of entity.now }
{
    let list = entity.declarations.list();
    match (whole_among(list), tentative_among(list)) {
        (Some(declaration), _) | (None, Some(declaration)) => Some(declaration),
        (None, None) => list.first(),
    }
}

/// The entity of a source, with its declaration that counts.
pub(crate) fn declared_at(linked: &Linked, e: u32) -> (&Entity, &Declaration)
    requires { IsDeclaredHere linked.now e }
    ensures at { slice_get linked.now.unit.entities e ≡ Some result.0.now }
    ensures by { lowering.declaration_of result.0.now ≡ Some result.1.now }
{
    let entities = linked.unit.entities.list();
    let entity = &entities[e as usize];
    match declaration_of(entity) {
        Some(by) => (entity, by),
        None => unreachable!(),
    }
}

/// The source that defines an entity of a source, and the entity's number there.
pub fn definition_of(whole: &Whole, linked: &Linked, e: u32) -> Option<(u32, u32)>
    ensures { result ≡ defined_by whole.now linked.now e }
{
    match linked.entities.list().get(e as usize) {
        Some(here) => definition_here(whole, *here),
        None => None,
    }
}

/// The source that defines an entity of the program, and the entity's number there.
pub(crate) fn definition_here(whole: &Whole, here: u32) -> Option<(u32, u32)>
    ensures { result ≡ defined_of whole.now here }
{
    match whole.entities.list().get(here as usize) {
        Some(entity) => entity.defined,
        None => None,
    }
}
