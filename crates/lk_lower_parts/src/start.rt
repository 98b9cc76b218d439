//! The function `main`.

ghost use Rattle.std.specs.Prelude.{◌≡◌, ◌<◌, IfOk, Some, get_or, length, slice_get};
ghost use Rattle.lk_lower_parts.specs.Mains.{IsMainOf, spot_of_main};
ghost use Rattle.lk_lower_parts.specs.Sources.{defined_of};
ghost use Rattle.lk_lower_parts.specs.Wholes.{HasMain, IsMainAt};

use crate::counts::{
    FunctionNumbers, behind, count_of, declaration_of, declared_at, definition_here,
};
use crate::names::number_or;
use lk_base::{NoMemory, Spot};
use lk_typed::{Body, Linked, Whole};

/// The function `main` of a program.
#[derive(Clone, Copy)]
pub struct Main {
    /// Its number.
    pub function: u32,
    /// The place of its name in its definition.
    pub spot: Spot,
    /// Whether it has parameters.
    pub has_parameters: bool,
}

/// The body of an entity with its place in its source. A function that a source defines has one.
fn body_of(linked: &Linked, entity: u32) -> Result<(u32, &Body), NoMemory>
    ensures at { IfOk result (λ found. slice_get linked.now.unit.bodies found.0 ≡ Some found.1.now) }
    ensures of { IfOk result (λ found. found.1.now.entity ≡ entity) }
{
    let bodies = linked.unit.bodies.list();
    for b in 0..bodies.len() {
        if bodies[b].entity == entity {
            return Ok((count_of(b)?, &bodies[b]));
        }
    }
    Err(NoMemory)
}

/// The place of the name of `main` in its definition. A source defines it, since a program
/// without it isn't put together.
pub fn main_spot(whole: &Whole) -> Option<Spot>
    ensures { result ≡ spot_of_main whole.now }
{
    let (source, e) = definition_here(whole, whole.main)?;
    let linked = whole.sources.get(source as usize)?;
    let entity = linked.unit.entities.get(e as usize)?;
    let declared = declaration_of(entity)?;
    Some(declared.spot)
}

/// The source that defines `main`, and the entity's number there.
fn definition_of_main(whole: &Whole) -> (u32, u32)
    requires { HasMain whole.now }
    ensures defined { defined_of whole.now whole.now.main ≡ Some result }
    ensures there { IsMainAt whole.now result.0 result.1 }
{
    match definition_here(whole, whole.main) {
        Some(definition) => definition,
        None => unreachable!(),
    }
}

/// The source of this place.
pub(crate) fn source_of(whole: &Whole, source: usize) -> &Linked
    requires { source < length whole.now.sources }
    ensures { slice_get whole.now.sources source ≡ Some result.now }
{
    &whole.sources.list()[source]
}

/// The number of the function of the first body of a source; 0 past the last one.
pub(crate) fn first_of(functions: &FunctionNumbers, source: usize) -> u32
    ensures { result ≡ get_or functions.now.first source 0 }
{
    number_or(functions.first.list(), source, 0)
}

/// The function `main` of the program.
pub fn main_of(whole: &Whole, functions: &FunctionNumbers) -> Result<Main, NoMemory>
    requires { HasMain whole.now }
    ensures { IfOk result (IsMainOf whole.now functions.now) }
{
    let (source, e) = definition_of_main(whole);
    let linked = source_of(whole, source as usize);
    let first = first_of(functions, source as usize);
    let (b, body) = body_of(linked, e)?;
    let (_, by) = declared_at(linked, e);
    let function = behind(first, b)?;
    Ok(Main {
        function,
        spot: by.spot,
        has_parameters: body.parameters > 0,
    })
}
