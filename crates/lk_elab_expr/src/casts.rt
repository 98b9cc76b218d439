//! Casts (C99 6.5.4).
ghost use Rattle.std.specs.Prelude.{◌≡◌, ◌&&◌, IfOk, OnOk};
ghost use Rattle.lk_typed.specs.Meaning.{IsKnownType, meaning_of};
ghost use Rattle.lk_typed.specs.Ty as ty;
ghost use Rattle.lk_typed.specs.Typings.{IsOperand};
ghost use Rattle.lk_elaborator.specs.Leading.{Grows};
ghost use Rattle.lk_elab_expr.specs.CastForms.{DecidesCast, casting};

use lk_base::NoMemory;
use lk_elaborator::{Elaborator, One, OneForm, type_named_at, value_as, value_at};
use lk_typed::{ExprType, Role, Typed, is_pointer, is_void};
use lk_types::TypeTable;

/// How a cast converts.
#[derive(Clone, Copy)]
enum Casting {
    /// To void it drops the value (C99 6.3.2.2).
    Discard,
    /// A null pointer constant becomes a null pointer (C99 6.3.2.3, 3).
    Null,
    /// It is written out, though the types be equal.
    Convert,
}

/// How a cast of a value to a type converts.
fn cast_to(types: &TypeTable, target: &ExprType, v: &Typed) -> Casting
    requires target { IsKnownType types.now target.now }
    requires value { IsOperand types.now v.now }
    ensures { result ≡ casting (ty.is_void (meaning_of types.now target.now))
        (ty.is_pointer (meaning_of types.now target.now) && v.now.is_null) }
{
    if is_void(types, target) {
        Casting::Discard
    } else if is_pointer(types, target) && v.is_null {
        Casting::Null
    } else {
        Casting::Convert
    }
}

/// A cast of the operand with a number to the type that the type name with that number names.
pub(crate) fn cast(walk: &mut Elaborator, target: u32, operand: u32) -> Result<One, NoMemory>
    ensures one { IfOk result (DecidesCast walk.old walk.new target operand) }
    ensures grows { OnOk result (Grows walk.old walk.new) }
{
    let ty = ExprType::Listed(type_named_at(walk, target)?);
    let v = value_at(walk, operand)?;
    match cast_to(walk.types.table(), &ty, &v) {
        Casting::Null => Ok(One::Null),
        Casting::Discard => {
            let part = value_as(walk, operand, Role::ConvertedTo(ty))?;
            Ok(One::Of(OneForm::Discard, part))
        }
        Casting::Convert => {
            let part = value_as(walk, operand, Role::ConvertedTo(ty))?;
            Ok(One::Of(OneForm::Convert, part))
        }
    }
}
