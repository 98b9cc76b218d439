//! The members that `.` and `->` name, by their numbers (C99 6.5.2.3).
ghost use Rattle.std.specs.Prelude.{◌≡◌, ◌+◌, IfOk, map};
ghost use Rattle.lk_typed.specs.Meaning.{IsKnownType, meaning_of};
ghost use Rattle.lk_elaborator.specs.Fields.{IsFieldNumber, IsNumberBehind, IsNumberIn, IsNumberOf, number_of_name};
ghost use Rattle.lk_elaborator.specs.Known.{OfEach};

use crate::elaborator::Elaborator;
use crate::found::{typing_at, value_at};
use crate::unreached::nowhere;
use lk_base::{Name, NoMemory};
use lk_typed::{ExprType, Field, Members, struct_of, target_of};

/// The number behind this one.
fn next(number: u32) -> Result<u32, NoMemory>
    ensures { IfOk result (λ next. next ≡ number + 1) }
{
    match number.checked_add(1) {
        Some(next) => Ok(next),
        None => Err(NoMemory),
    }
}

/// The number of the member with a name. There is one where a member is named.
fn number_of_field(fields: &[Field], name: &Name) -> Result<u32, NoMemory>
    ensures { IfOk result (λ k. k ≡ number_of_name (map (λ field. field.name) fields.now) name.now) }
{
    let mut number: u32 = 0;
    for field in fields {
        if field.name == *name {
            return Ok(number);
        }
        number = next(number)?;
    }
    Err(nowhere())
}

/// The number of the member of a struct with a name. The struct is complete where a member is named.
fn field_number(structs: &[Members], s: u32, name: &Name) -> Result<u32, NoMemory>
    ensures { IfOk result (IsFieldNumber structs.now s name.now) }
{
    match structs.get(s as usize) {
        Some(Members::Known(fields)) => number_of_field(fields.list(), name),
        Some(Members::NotYet | Members::Begun | Members::Faulty) | None => Err(nowhere()),
    }
}

/// The number of the member of a struct type with a name. What is on the left of `.` has one.
fn number_in(walk: &Elaborator, ty: &ExprType, name: &Name) -> Result<u32, NoMemory>
    requires { IsKnownType walk.now.types ty.now }
    ensures { IfOk result (IsNumberIn walk.now (meaning_of walk.now.types ty.now) name.now) }
{
    match struct_of(walk.types.table(), ty) {
        Some(s) => field_number(walk.names.structs(), s, name),
        None => Err(nowhere()),
    }
}

/// The number of the member with a name of the struct to which a pointer points. What
/// is on the left of `->` is one.
pub fn number_behind(walk: &Elaborator, pointer: u32, name: &Name) -> Result<u32, NoMemory>
    ensures { IfOk result (λ k. OfEach walk.now pointer (λ p. IsNumberBehind walk.now p name.now k)) }
{
    let v = value_at(walk, pointer)?;
    match target_of(walk.types.table(), &v.ty) {
        Some(target) => number_in(walk, &ExprType::Listed(target), name),
        None => Err(nowhere()),
    }
}

/// The number of the member with a name of an object.
pub fn number_of(walk: &Elaborator, object: u32, name: &Name) -> Result<u32, NoMemory>
    ensures { IfOk result (λ k. OfEach walk.now object (λ p. IsNumberOf walk.now p name.now k)) }
{
    let typing = typing_at(walk, object)?;
    number_in(walk, &typing.ty, name)
}
