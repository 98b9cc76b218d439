//! The parameters of a definition (C99 6.9.1).
ghost use Rattle.std.specs.Prelude.{◌≡◌, [], IfOk, IfSome, OnOk};
ghost use Rattle.std.specs.Option.{option_map};
ghost use Rattle.lk_typed.specs.Expressions.{declarator_layer};
ghost use Rattle.lk_typed.specs.Locals.{parameter_name};
ghost use Rattle.lk_typed.specs.Meaning.{meaning};
ghost use Rattle.lk_found.specs.Named.{name_in};
ghost use Rattle.lk_found.specs.Walked.{layer_of};
ghost use Rattle.lk_elaborator.specs.Leading.{GoesOn};
ghost use Rattle.lk_elaborator.specs.PuttingLocals.{PutsLocalOf};
ghost use Rattle.lk_elaborate.specs.PuttingParameters.{AreTypesOf, HasBeside, HasBesideInside};
ghost use Rattle.lk_elaborate.specs.PuttingParameters.{PutsParameter, PutsParameters, PutsTyped};

use crate::function_types::parameter_types;
use lk_base::{Boxed, Name, NoMemory, Spot};
use lk_elaborator::{Elaborator, nowhere, put_local};
use lk_found::{DeclaredName, declared_name};
use lk_tree::{Declarator, DeclaratorForm, Parameter};
use lk_types::{TypeId, TypeIds};

/// Whether a declarator is only a name, perhaps in parentheses.
fn is_name(d: &Declarator) -> bool
    ensures { result ≡ (declarator_layer d.now).is_name }
{
    match &d.form {
        DeclaratorForm::Named(_) => true,
        DeclaratorForm::Group(inner) => is_name(inner.get()),
        DeclaratorForm::Star(..) | DeclaratorForm::ArrayOf(..) | DeclaratorForm::FunctionOf(..) => {
            false
        }
    }
}

/// Whether the declarator inside another one is there, and only a name.
fn is_name_inside(inner: &Option<Boxed<Declarator>>) -> bool
    ensures { result ≡ (layer_of inner.now).is_name }
{
    match inner {
        Some(inner) => is_name(inner.get()),
        None => false,
    }
}

/// The parameters of the function declarator that stands directly beside the name, where there is one
/// (`HasParameters`).
#[cycle(parameters_beside)]
fn parameters_beside(d: &Declarator) -> Option<&[Parameter]>
    ensures { IfSome result (λ list. HasBeside d.now list.now) }
{
    match &d.form {
        DeclaratorForm::FunctionOf(inner, list, _) => {
            if is_name_inside(inner) {
                Some(list.list())
            } else {
                parameters_inside(inner)
            }
        }
        DeclaratorForm::Star(_, inner) => parameters_inside(inner),
        DeclaratorForm::ArrayOf(inner, _) => parameters_inside(inner),
        DeclaratorForm::Group(inner) => parameters_beside(inner.get()),
        DeclaratorForm::Named(_) => None,
    }
}

/// Those of the declarator inside another one, where there is one.
#[cycle(parameters_beside)]
fn parameters_inside(inner: &Option<Boxed<Declarator>>) -> Option<&[Parameter]>
    ensures { IfSome result (λ list. HasBesideInside inner.now list.now) }
{
    match inner {
        Some(inner) => parameters_beside(inner.get()),
        None => None,
    }
}

/// Puts a parameter without a name, at its own place.
fn put_unnamed(walk: &mut Elaborator, ty: TypeId, spot: Spot, ordinal: u32) -> Result<(), NoMemory>
    ensures { OnOk result (PutsLocalOf walk.old walk.new [] ty spot ordinal) }
{
    let name = Name::empty(walk.alloc);
    put_local(walk, name, ty, spot, ordinal)?;
    Ok(())
}

/// Puts a parameter with a name, at that.
fn put_named(walk: &mut Elaborator, ty: TypeId, named: &DeclaredName<'_>) -> Result<(), NoMemory>
    ensures { OnOk result (PutsLocalOf walk.old walk.new named.now.name.now ty named.now.at.spot
        named.now.at.ordinal) }
{
    let name = named.name.copy()?;
    put_local(walk, name, ty, named.at.spot, named.at.ordinal)?;
    Ok(())
}

/// The declared name of a parameter, where it has one.
fn name_of(p: &Parameter) -> Option<DeclaredName<'_>>
    ensures { option_map name_in result ≡ parameter_name p.now }
{
    match &p.declarator {
        Some(d) => declared_name(d),
        None => None,
    }
}

/// Puts a parameter among the locals (`StandsAtName`).
fn put_parameter(walk: &mut Elaborator, p: &Parameter, ty: TypeId) -> Result<(), NoMemory>
    ensures { OnOk result (PutsParameter walk.old walk.new p.now ty) }
{
    match name_of(p) {
        Some(named) => {
            put_named(walk, ty, &named)?;
            Ok(())
        }
        None => {
            put_unnamed(walk, ty, p.spot, p.ordinal)?;
            Ok(())
        }
    }
}

/// The types of the parameters in a function of this type.
fn types_in(walk: &Elaborator, t: TypeId) -> Result<TypeIds, NoMemory>
    ensures { IfOk result (λ types. AreTypesOf walk.now.types (meaning walk.now.types t) types) }
{
    let types = parameter_types(walk.types.table(), t)?;
    Ok(types)
}

/// Puts the parameters that have these types. `(void)` is none (C99 6.7.5.3, 10), and
/// else there are as many as types.
fn put_typed(walk: &mut Elaborator, list: &[Parameter], types: &[TypeId]) -> Result<(), NoMemory>
    ensures { OnOk result (PutsTyped walk.old walk.new list.now types.now) }
{
    for (place, ty) in types.iter().enumerate() {
        match list.get(place) {
            Some(p) => put_parameter(walk, p, *ty)?,
            None => return Err(nowhere()),
        }
    }
    Ok(())
}

/// Puts the parameters of a function of this type: how many there are. Each definition has a function
/// declarator beside its name (C99 6.9.1, 2).
pub(crate) fn put_parameters(
    walk: &mut Elaborator,
    d: &Declarator,
    t: TypeId,
) -> Result<u32, NoMemory>
    ensures goes_on { OnOk result (GoesOn walk.old walk.new) }
    ensures puts { IfOk result (PutsParameters walk.old walk.new d.now t) }
{
    let types = types_in(walk, t)?;
    match parameters_beside(d) {
        Some(list) => {
            put_typed(walk, list, types.list())?;
            let count = walk.locals.count()?;
            Ok(count)
        }
        None => Err(nowhere()),
    }
}
