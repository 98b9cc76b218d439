//! The values of enumerators (C99 6.7.2.2).
ghost use Rattle.std.specs.Prelude.{◌≡◌};
ghost use Rattle.lk_typed.specs.HolderRules as spec;
ghost use Rattle.lk_typed.specs.Told.{in_int, next_value, written_value};
ghost use Rattle.lk_check_decl.specs.Breaches.{told};

use lk_base::Code;
use lk_typed::Constant;

/// A value where `int` holds it (C99 6.7.2.2, 2).
fn in_int(value: i128) -> Option<i32>
    ensures { result ≡ in_int value }
{
    if value < -2_147_483_648 || value > 2_147_483_647 {
        None
    } else {
        Some(value as i32)
    }
}

/// The value of an enumerator that is written as an expression, by what that is as an integer constant
/// expression; nothing where a fault stands in it, or `Code::NotConstant` holds at the enumerator.
pub fn written_value(value: Option<Constant>) -> Option<i32>
    ensures { result ≡ written_value value }
{
    match value {
        Some(Constant::Known(value)) => in_int(value),
        Some(Constant::NotConstant | Constant::Undefined) | None => None,
    }
}

/// The code of an enumerator with such a value: `Code::NotConstant` where it isn't constant, or `int` doesn't
/// hold it.
pub fn written_code(value: Option<Constant>) -> Option<Code>
    ensures { result ≡ told (spec.written_rules value) }
{
    if value.is_some() && written_value(value).is_none() {
        Some(Code::NotConstant)
    } else {
        None
    }
}

/// The value of an enumerator without an expression: one more than the one before it, where that has one.
/// Before the first enumerator stands -1 (C99 6.7.2.2, 3).
pub fn next_value(before: Option<i32>) -> Option<i32>
    ensures { result ≡ next_value before }
{
    match before {
        Some(value) => in_int(i128::from(value) + 1),
        None => None,
    }
}

/// The code of an enumerator without an expression: `Code::NotConstant` where `int` doesn't hold its value.
pub fn next_code(before: Option<i32>) -> Option<Code>
    ensures { result ≡ told (spec.counted_rules before) }
{
    if before.is_some() && next_value(before).is_none() {
        Some(Code::NotConstant)
    } else {
        None
    }
}
