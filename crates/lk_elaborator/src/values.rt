//! The value of an expression, and the value converted to a type (C99 6.3).
ghost use Rattle.std.specs.Prelude.{◌≡◌, ◌&&◌, Bool, IfOk, OnOk};
ghost use Rattle.lk_typed.specs.Elaborated.{InPlace, IsTyped};
ghost use Rattle.lk_typed.specs.Meaning.{IsKnownType, meaning_of};
ghost use Rattle.lk_typed.specs.Operators as operators;
ghost use Rattle.lk_typed.specs.Tables.{Tables};
ghost use Rattle.lk_typed.specs.Ty as ty;
ghost use Rattle.lk_typed.specs.Typings.{IsOperand};
ghost use Rattle.lk_typed.specs.declared.expression.Callee.TheOpen.{TypedForm-F};
ghost use Rattle.lk_elaborator.specs.Converting.{GivesConversion, GivesUnconverted, GivesValue, GivesWritten, converting, valued_as};
ghost use Rattle.lk_elaborator.specs.Elaborating.{ElaboratesConverted, ElaboratesValue};
ghost use Rattle.lk_elaborator.specs.Leading.{Grows};
ghost use Rattle.lk_elaborator.specs.Standing.{IsConversion, IsMadeBy, IsNodeFor, IsValuedBy};

use crate::elaborator::Elaborator;
use crate::found::{typing_at, value_at};
use crate::type_numbers::{element_of, known_type, listed};
use lk_base::{Boxed, NoMemory};
use lk_check_expr::is_scalar;
use lk_typed::{ExprType, Typed, TypedExpr, TypedForm, are_same, is_pointer};
use lk_types::{TypeId, TypeTable};
use std::alloc::Global;

/// How the value of an expression is had of its node (C99 6.3.2.1, 2 to 4).
#[derive(Clone, Copy)]
pub enum Valued {
    /// It is an array, which becomes the pointer to its first element: the number of that pointer's type.
    FirstElement(TypeId),
    /// It is a place of scalar type, which is read.
    Read,
    /// It is the value itself.
    Itself,
}

/// What is made of the node of an expression.
#[derive(Clone, Copy)]
pub struct Making {
    /// How its value is had.
    pub valued: Valued,
    /// The number of the type to which the value is converted, where that is written out.
    pub converted_to: Option<TypeId>,
}

/// What the value of an expression is, converted to a type (C99 6.3).
#[derive(Clone, Copy)]
pub(crate) enum Conversion {
    /// A null pointer of the type with this number, since it is a null pointer constant (C99 6.3.2.3, 3).
    Null(TypeId),
    /// What is made of its node.
    Made(Making),
}

/// How the value of an expression is had of which this is known and which is no array.
fn scalar_valued(types: &TypeTable, typing: &Typed) -> Valued
    requires { IsOperand types.now typing.now }
    ensures { result ≡
        valued_as (typing.now.is_place && operators.is_scalar (meaning_of types.now typing.now.ty)) }
{
    if typing.is_place && is_scalar(types, &typing.ty) {
        Valued::Read
    } else {
        Valued::Itself
    }
}

/// How the value of the expression with a number is had.
pub(crate) fn valued_at(walk: &mut Elaborator, ordinal: u32) -> Result<Valued, NoMemory>
    ensures value { IfOk result (GivesValue walk.old walk.new ordinal) }
    ensures grows { OnOk result (Grows walk.old walk.new) }
{
    let typing = typing_at(walk, ordinal)?;
    match element_of(walk.types.table(), &typing.ty) {
        Some(element) => Ok(Valued::FirstElement(walk.types.pointer(element)?)),
        None => Ok(scalar_valued(walk.types.table(), &typing)),
    }
}

/// A place of scalar type that is read.
fn read(alloc: Global, node: TypedExpr) -> Result<TypedExpr, NoMemory>
    ensures { IfOk result (IsNodeFor node node.ty (TypedForm-F.Load node)) }
{
    let (spot, ordinal, ty) = (node.spot, node.ordinal, node.ty);
    let inner = Boxed::new(alloc, node)?;
    Ok(TypedExpr {
        spot,
        ordinal,
        ty,
        form: TypedForm::Load(inner),
    })
}

/// An array that becomes the pointer to its first element, of this type.
fn first_element(alloc: Global, ty: TypeId, node: TypedExpr) -> Result<TypedExpr, NoMemory>
    ensures { IfOk result (IsNodeFor node ty (TypedForm-F.Decay node)) }
{
    let (spot, ordinal) = (node.spot, node.ordinal);
    let inner = Boxed::new(alloc, node)?;
    Ok(TypedExpr {
        spot,
        ordinal,
        ty,
        form: TypedForm::Decay(inner),
    })
}

/// A value whose conversion to this type is written out.
fn convert(alloc: Global, ty: TypeId, value: TypedExpr) -> Result<TypedExpr, NoMemory>
    ensures { IfOk result (IsNodeFor value ty (TypedForm-F.Convert value)) }
{
    let (spot, ordinal) = (value.spot, value.ordinal);
    let inner = Boxed::new(alloc, value)?;
    Ok(TypedExpr {
        spot,
        ordinal,
        ty,
        form: TypedForm::Convert(inner),
    })
}

/// The value of an expression with this node, which is had so.
fn valued_node(alloc: Global, valued: Valued, node: TypedExpr) -> Result<TypedExpr, NoMemory>
    ensures { IfOk result (IsValuedBy valued node) }
{
    match valued {
        Valued::FirstElement(ty) => first_element(alloc, ty, node),
        Valued::Read => read(alloc, node),
        Valued::Itself => Ok(node),
    }
}

/// What is made so of the node of an expression.
pub fn made_node(alloc: Global, making: Making, node: TypedExpr) -> Result<TypedExpr, NoMemory>
    ensures { IfOk result (IsMadeBy making node) }
{
    let value = valued_node(alloc, making.valued, node)?;
    match making.converted_to {
        Some(ty) => convert(alloc, ty, value),
        None => Ok(value),
    }
}

/// The value of an expression (`IsValue`; C99 6.3.2.1, 2 to 4).
pub fn value_node(walk: &mut Elaborator, node: TypedExpr) -> Result<TypedExpr, NoMemory>
    ensures value { IfOk result (ElaboratesValue walk.old walk.new node) }
    ensures grows { OnOk result (Grows walk.old walk.new) }
{
    let valued = valued_at(walk, node.ordinal)?;
    valued_node(walk.alloc, valued, node)
}

/// How a value is converted to a type (C99 6.3).
#[derive(Clone, Copy)]
enum Converting {
    /// It has the type.
    Alike,
    /// A null pointer constant becomes a null pointer (C99 6.3.2.3, 3).
    Null,
    /// The conversion is written out.
    Written,
}

/// How a value is converted to a type.
fn how_converted(types: &TypeTable, v: &Typed, target: &ExprType) -> Converting
    requires value { IsOperand types.now v.now }
    requires target { IsKnownType types.now target.now }
    ensures { result ≡ converting
        (ty.is_same (meaning_of types.now v.now.ty) (meaning_of types.now target.now))
        (ty.is_pointer (meaning_of types.now target.now) && v.now.is_null) }
{
    if are_same(types, &v.ty, target) {
        Converting::Alike
    } else if is_pointer(types, target) && v.is_null {
        Converting::Null
    } else {
        Converting::Written
    }
}

/// The value of the expression with a number, which has the type.
fn alike(walk: &mut Elaborator, ordinal: u32) -> Result<Conversion, NoMemory>
    ensures value { IfOk result (λ made. GivesUnconverted walk.old walk.new ordinal made) }
    ensures grows { OnOk result (Grows walk.old walk.new) }
{
    let valued = valued_at(walk, ordinal)?;
    Ok(Conversion::Made(Making {
        valued,
        converted_to: None,
    }))
}

/// The value of the expression with a number, whose conversion to a type is written out.
fn written(walk: &mut Elaborator, ordinal: u32, target: &ExprType) -> Result<Conversion, NoMemory>
    requires { IsKnownType walk.old.types target.now }
    ensures value { IfOk result (λ made.
        GivesWritten walk.old walk.new ordinal made (meaning_of walk.old.types target.now)) }
    ensures grows { OnOk result (Grows walk.old walk.new) }
{
    let ty = listed(&mut walk.types, target)?;
    let valued = valued_at(walk, ordinal)?;
    Ok(Conversion::Made(Making {
        valued,
        converted_to: Some(ty),
    }))
}

/// What the value of the expression with a number is, converted to a type of the
/// table or to a pointer to one.
pub(crate) fn conversion_at(
    walk: &mut Elaborator,
    ordinal: u32,
    target: &ExprType,
) -> Result<Conversion, NoMemory>
    ensures converts { IfOk result (λ made.
        GivesConversion walk.old walk.new ordinal made (meaning_of walk.old.types target.now)) }
    ensures known { OnOk result (IsKnownType walk.old.types target.now) }
    ensures grows { OnOk result (Grows walk.old walk.new) }
{
    let v = value_at(walk, ordinal)?;
    let target = known_type(walk.types.table(), target)?;
    match how_converted(walk.types.table(), &v, &target) {
        Converting::Alike => alike(walk, ordinal),
        Converting::Null => Ok(Conversion::Null(listed(&mut walk.types, &target)?)),
        Converting::Written => written(walk, ordinal, &target),
    }
}

/// A null pointer of this type in the place of an expression.
fn null_node(node: TypedExpr, ty: TypeId) -> TypedExpr
    ensures { IsNodeFor node ty TypedForm-F.Null result }
{
    TypedExpr {
        spot: node.spot,
        ordinal: node.ordinal,
        ty,
        form: TypedForm::Null,
    }
}

/// The value of an expression with this node, which is converted so.
fn converted_node(
    alloc: Global,
    conversion: Conversion,
    node: TypedExpr,
) -> Result<TypedExpr, NoMemory>
    ensures { IfOk result (λ t. (tables : Tables) (folded : Bool) (p : InPlace) →
        IsTyped tables folded p node → IsConversion tables folded p conversion t) }
{
    match conversion {
        Conversion::Null(ty) => Ok(null_node(node, ty)),
        Conversion::Made(making) => made_node(alloc, making, node),
    }
}

/// The value of an expression, converted to a type of the table or to a pointer to
/// one (`IsConverted`; C99 6.3).
pub fn converted(
    walk: &mut Elaborator,
    node: TypedExpr,
    target: &ExprType,
) -> Result<TypedExpr, NoMemory>
    ensures converted { IfOk result (ElaboratesConverted walk.old walk.new node target.now) }
    ensures grows { OnOk result (Grows walk.old walk.new) }
{
    match conversion_at(walk, node.ordinal, target) {
        Ok(conversion) => converted_node(walk.alloc, conversion, node),
        Err(NoMemory) => Err(NoMemory),
    }
}
