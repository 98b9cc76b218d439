//! What a scalar of static storage begins with (C99 6.6, 7 to 9; 6.7.8, 4 and 10).
ghost use Rattle.std.specs.Prelude.{◌≡◌, IfOk, OnOk, true};
ghost use Rattle.lk_typed.specs.Meaning.{meaning};
ghost use Rattle.lk_typed.specs.StaticInits.{IsTruthOf};
ghost use Rattle.lk_typed.specs.Tables.{Tables};
ghost use Rattle.lk_typed.specs.Ty as spec;
ghost use Rattle.lk_elaborator.specs.Known.{OfEach};
ghost use Rattle.lk_elaborator.specs.Leading.{Grows};
ghost use Rattle.lk_elab_init.specs.Reaching.{address_in};
ghost use Rattle.lk_elaborate.specs.StaticParts.{BeginsInteger, BeginsPointer, BeginsWithNumber, GivesStaticValue, HasConstantValue};
ghost use Rattle.lk_elaborate.specs.StaticParts.{IsScalar, IsTruth, IsTruthFor, PointsInside, PointsTo};

use lk_arith::convert;
use lk_base::{Kind, NoMemory};
use lk_elab_expr::given_value;
use lk_elab_init::{Anchor, End, Position, Reached, converted_address, is_pointer_at, kind_at};
use lk_elaborator::{Elaborator, nowhere, value_at};
use lk_tree::Expr;
use lk_typed::{Constant, ExprType, StaticValue, Typed, TypedExpr};
use lk_types::TypeId;

/// What a scalar part begins with, and the expression that gives it where it is a pointer (`IsStaticValue`).
#[derive(Drop)]
pub(crate) struct Begun {
    pub(crate) value: StaticValue,
    pub(crate) pointer: Option<TypedExpr>,
}

/// The pointer to a place.
fn pointer_inside(walk: &Elaborator, place: Position) -> Result<StaticValue, NoMemory>
    ensures { IfOk result (PointsInside walk.now place) }
{
    let anchor = place.anchor;
    let End { steps, is_past } = place.end()?;
    match anchor {
        Anchor::Object(ordinal) => {
            let entity = walk.entities.declared_at(ordinal)?;
            Ok(StaticValue::Address(entity, steps, is_past))
        }
        Anchor::Text(ordinal) => Ok(StaticValue::Text(ordinal, steps, is_past)),
    }
}

/// What a pointer begins with, by the address that it is (`IsPointerTo`).
fn pointer_to(walk: &Elaborator, address: Reached) -> Result<StaticValue, NoMemory>
    ensures { IfOk result (PointsTo walk.now address) }
{
    match address {
        Reached::Null => Ok(StaticValue::Null),
        Reached::Function(ordinal) => {
            let entity = walk.entities.declared_at(ordinal)?;
            Ok(StaticValue::Function(entity))
        }
        Reached::Inside(place) => pointer_inside(walk, place),
    }
}

/// Whether an address, as a `_Bool`, is 0 or 1 (`IsTruthOf`; C99 6.3.1.2).
fn truth_of(address: &Reached) -> Result<i128, NoMemory>
    ensures { IfOk result (λ z. (tables : Tables) → IsTruthOf tables (address_in address.now) z) }
{
    match address {
        Reached::Null => Ok(0),
        Reached::Function(_) | Reached::Inside(_) => Ok(1),
    }
}

/// Whether the address that an expression is, as a `_Bool`, is 0 or 1.
fn truth(walk: &Elaborator, e: &Expr) -> Result<i128, NoMemory>
    ensures { IfOk result (IsTruth walk.now e.now) }
{
    let address = converted_address(walk, e)?;
    truth_of(&address)
}

/// What an integer of a kind begins with that is no constant: an address, as a `_Bool`. Of other kinds it is
/// refused, with `Code::NotConstant` or `Code::IntPointerCast`.
fn truth_for(walk: &Elaborator, kind: Kind, e: &Expr) -> Result<i128, NoMemory>
    ensures { IfOk result (IsTruthFor walk.now kind e.now) }
{
    match kind {
        Kind::Bool => truth(walk, e),
        Kind::Char
        | Kind::SChar
        | Kind::UChar
        | Kind::Short
        | Kind::UShort
        | Kind::Int
        | Kind::UInt
        | Kind::Long
        | Kind::ULong
        | Kind::LLong
        | Kind::ULLong => Err(nowhere()),
    }
}

/// What an expression of which this is known is as an integer constant expression.
fn constant_of(v: &Typed) -> Constant
    ensures { result ≡ v.now.constant }
{
    v.constant
}

/// What the value of the expression with a number is as an integer constant expression.
fn constant_at(walk: &Elaborator, ordinal: u32) -> Result<Constant, NoMemory>
    ensures { IfOk result (λ c. OfEach walk.now ordinal (λ p. HasConstantValue p c)) }
{
    match value_at(walk, ordinal) {
        Ok(v) => Ok(constant_of(&v)),
        Err(NoMemory) => Err(NoMemory),
    }
}

/// What an integer of a kind begins with: a constant, converted; or whether an address is one.
fn number(walk: &Elaborator, kind: Kind, e: &Expr) -> Result<i128, NoMemory>
    ensures { IfOk result (BeginsWithNumber walk.now kind e.now) }
{
    match constant_at(walk, e.ordinal)? {
        Constant::Known(number) => Ok(convert(kind, number)),
        Constant::NotConstant | Constant::Undefined => truth_for(walk, kind, e),
    }
}

/// What an integer of a kind begins with.
fn integer(walk: &Elaborator, kind: Kind, e: &Expr) -> Result<Begun, NoMemory>
    ensures { IfOk result (BeginsInteger walk.now kind e.now) }
{
    let number = number(walk, kind, e)?;
    Ok(Begun {
        value: StaticValue::Number(number),
        pointer: None,
    })
}

/// What a pointer begins with, by the expression of which it is the value.
fn pointer_value(walk: &Elaborator, e: &Expr) -> Result<StaticValue, NoMemory>
    ensures { IfOk result (BeginsPointer walk.now e.now) }
{
    let address = converted_address(walk, e)?;
    pointer_to(walk, address)
}

/// What a pointer of the type with this number begins with.
fn pointer(walk: &mut Elaborator, ty: TypeId, e: &Expr) -> Result<Begun, NoMemory>
    requires { spec.is_pointer (meaning walk.old.types ty) ≡ true }
    ensures value { IfOk result (GivesStaticValue walk.old walk.new ty e.now) }
    ensures grows { OnOk result (Grows walk.old walk.new) }
{
    let value = pointer_value(walk, e)?;
    let node = given_value(walk, e, &ExprType::Listed(ty), true)?;
    Ok(Begun {
        value,
        pointer: Some(node),
    })
}

/// A scalar type.
#[derive(Clone, Copy)]
pub(crate) enum Scalar {
    Integer(Kind),
    Pointer,
}

/// The scalar type with this number. What an expression initialises alone is one: a struct, or an array that
/// no text initialises, is refused with `Code::BadInitialiser` inside braces, else with `Code::Mismatch` or
/// `Code::StructValue`.
fn scalar_of(walk: &Elaborator, ty: TypeId) -> Result<Scalar, NoMemory>
    ensures { IfOk result (IsScalar (meaning walk.now.types ty)) }
{
    match kind_at(walk.types.table(), ty)? {
        Some(kind) => Ok(Scalar::Integer(kind)),
        None => {
            if is_pointer_at(walk.types.table(), ty)? {
                Ok(Scalar::Pointer)
            } else {
                Err(nowhere())
            }
        }
    }
}

/// What a scalar of this type begins with, by the expression that initialises it.
pub(crate) fn static_value(walk: &mut Elaborator, ty: TypeId, e: &Expr) -> Result<Begun, NoMemory>
    ensures value { IfOk result (GivesStaticValue walk.old walk.new ty e.now) }
    ensures grows { OnOk result (Grows walk.old walk.new) }
{
    match scalar_of(walk, ty)? {
        Scalar::Integer(kind) => integer(walk, kind, e),
        Scalar::Pointer => pointer(walk, ty, e),
    }
}
