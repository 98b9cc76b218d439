//! What stands in an expression for an operand: itself, its value, or its value converted
//! (`IsTyped`, `IsValue`, `IsConverted`).

ghost use Rattle.std.specs.Prelude.{◌≡◌, Bool, IfOk, OnOk, true};
ghost use Rattle.lk_typed.specs.Elaborated.{InPlace, IsTyped, IsValue};
ghost use Rattle.lk_typed.specs.Meaning.{meaning_of};
ghost use Rattle.lk_typed.specs.Tables.{Tables};
ghost use Rattle.lk_typed.specs.Typing as typing;
ghost use Rattle.lk_typed.specs.declared.expression.TypedExpr.{TypedExpr};
ghost use Rattle.lk_elaborator.specs.Converting.{ConvertedTo, Gives, GivesNumber, IsGivenAs, KeepsRole, OperandOf, StandsAnyhow};
ghost use Rattle.lk_elaborator.specs.Leading.{Grows};
ghost use Rattle.lk_elaborator.specs.Standing.{IsConversion, IsPart};

use crate::elaborator::Elaborator;
use crate::found::value_at;
use crate::type_numbers::{known_type, listed};
use crate::unreached::nowhere;
use crate::values::{Conversion, Making, Valued, conversion_at, valued_at};
use lk_base::NoMemory;
use lk_typed::{Constant, ExprType, Role};
use lk_types::TypeId;

/// What stands in an expression for an operand.
#[derive(Clone, Copy)]
pub enum Part {
    /// What is made of its node, which stands as this.
    Operand(Role, Making),
    /// A null pointer of the type with this number.
    Null(TypeId),
    /// This number, of the type with that number.
    Number(i128, TypeId),
}

/// An operand itself: it isn't read.
pub fn itself_part() -> Part
    ensures typed { (tables : Tables) (folded : Bool) (p : InPlace) (t : TypedExpr) →
        IsPart tables folded p result t → IsTyped tables folded p t }
    ensures role { StandsAnyhow result }
{
    Part::Operand(
        Role::Operand,
        Making {
            valued: Valued::Itself,
            converted_to: None,
        },
    )
}

/// The value of the operand with a number, which stands as this.
pub fn value_as(walk: &mut Elaborator, ordinal: u32, role: Role) -> Result<Part, NoMemory>
    ensures value { IfOk result (λ part. Gives walk.old walk.new ordinal part IsValue) }
    ensures role { IfOk result (KeepsRole role) }
    ensures grows { OnOk result (Grows walk.old walk.new) }
{
    let valued = valued_at(walk, ordinal)?;
    Ok(Part::Operand(
        role,
        Making {
            valued,
            converted_to: None,
        },
    ))
}

/// The value of the operand with a number.
pub fn value_of(walk: &mut Elaborator, ordinal: u32) -> Result<Part, NoMemory>
    ensures value { IfOk result (λ part. Gives walk.old walk.new ordinal part IsValue) }
    ensures role { IfOk result StandsAnyhow }
    ensures grows { OnOk result (Grows walk.old walk.new) }
{
    let part = value_as(walk, ordinal, Role::Operand)?;
    Ok(part)
}

/// A value that is converted so, of an operand that stands as this.
fn converted_part(conversion: Conversion, role: Role) -> Part
    ensures made { (tables : Tables) (folded : Bool) (p : InPlace) (t : TypedExpr) →
        IsPart tables folded p result t → IsConversion tables folded p conversion t }
    ensures role { KeepsRole role result }
{
    match conversion {
        Conversion::Null(ty) => Part::Null(ty),
        Conversion::Made(making) => Part::Operand(role, making),
    }
}

/// The value of the operand with a number, converted to a type.
pub fn converted_operand(
    walk: &mut Elaborator,
    ordinal: u32,
    target: &ExprType,
) -> Result<Part, NoMemory>
    ensures converted { IfOk result (λ part.
        Gives walk.old walk.new ordinal part (ConvertedTo (meaning_of walk.old.types target.now))) }
    ensures role { IfOk result StandsAnyhow }
    ensures grows { OnOk result (Grows walk.old walk.new) }
{
    let conversion = conversion_at(walk, ordinal, target)?;
    Ok(converted_part(conversion, Role::Operand))
}

/// The value with a number that is converted to a type directly, as by an assignment, an
/// argument, a result or an initialiser.
pub fn given_part(walk: &mut Elaborator, ordinal: u32, target: &ExprType) -> Result<Part, NoMemory>
    ensures converted { IfOk result (λ part.
        Gives walk.old walk.new ordinal part (ConvertedTo (meaning_of walk.old.types target.now))) }
    ensures role { IfOk result (IsGivenAs walk.old walk.new target.now) }
    ensures grows { OnOk result (Grows walk.old walk.new) }
{
    let conversion = conversion_at(walk, ordinal, target)?;
    Ok(converted_part(conversion, Role::ConvertedTo(*target)))
}

/// The value of an integer constant expression.
fn known_value(constant: Constant) -> Option<i128>
    ensures { result ≡ typing.known_value constant }
{
    match constant {
        Constant::Known(number) => Some(number),
        Constant::NotConstant | Constant::Undefined => None,
    }
}

/// A number of a type.
fn number_of(walk: &mut Elaborator, target: &ExprType, number: i128) -> Result<Part, NoMemory>
    ensures number { IfOk result (λ part.
        GivesNumber walk.old walk.new part number (meaning_of walk.old.types target.now)) }
    ensures role { IfOk result StandsAnyhow }
    ensures grows { OnOk result (Grows walk.old walk.new) }
{
    let target = known_type(walk.types.table(), target)?;
    let ty = listed(&mut walk.types, &target)?;
    Ok(Part::Number(number, ty))
}

/// The operand with a number by which a pointer moves in an address constant: the number that it is.
/// It is a constant (C99 6.6, 9).
fn moving(walk: &mut Elaborator, ordinal: u32, target: &ExprType) -> Result<Part, NoMemory>
    ensures operand { IfOk result (λ part.
        Gives walk.old walk.new ordinal part (OperandOf true (meaning_of walk.old.types target.now))) }
    ensures role { IfOk result StandsAnyhow }
    ensures grows { OnOk result (Grows walk.old walk.new) }
{
    let v = value_at(walk, ordinal)?;
    match known_value(v.constant) {
        Some(number) => number_of(walk, target, number),
        None => Err(nowhere()),
    }
}

/// The operand with a number, converted to a type, and whether a pointer moves by it in an
/// address constant (`IsOperand`).
pub fn operand_part(
    walk: &mut Elaborator,
    ordinal: u32,
    target: &ExprType,
    moves: bool,
) -> Result<Part, NoMemory>
    ensures operand { IfOk result (λ part.
        Gives walk.old walk.new ordinal part (OperandOf moves (meaning_of walk.old.types target.now))) }
    ensures role { IfOk result StandsAnyhow }
    ensures grows { OnOk result (Grows walk.old walk.new) }
{
    if moves {
        moving(walk, ordinal, target)
    } else {
        converted_operand(walk, ordinal, target)
    }
}
