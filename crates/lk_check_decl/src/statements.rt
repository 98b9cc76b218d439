//! The rules of statements over the types of their expressions (C99 6.8). A type is missing where an
//! expression has none; then its statement breaks no rule. Types are those of values, as `value` gives them.
ghost use Rattle.std.specs.Prelude.{◌≡◌, IfSome, List};
ghost use Rattle.std.specs.Option.{option_map};
ghost use Rattle.lk_types.specs.Table.{IsKnown};
ghost use Rattle.lk_typed.specs.Faults.{Breach};
ghost use Rattle.lk_typed.specs.Meaning.{meaning, meaning_of, IsKnownType};
ghost use Rattle.lk_typed.specs.StatementRules as spec;
ghost use Rattle.lk_check_decl.specs.Breaches.{told};

use crate::breaches::unless;
use lk_base::Code;
use lk_typed::{ExprType, is_integer, is_lock, is_pointer, is_void};
use lk_types::{TypeId, TypeTable};

/// The code of a controlling expression: `Code::MutexValue` of a mutex or condition variable,
/// `Code::Mismatch` of what is neither an integer nor a pointer (C99 6.8.4.1, 1; 6.8.5, 2).
pub fn condition_code(types: &TypeTable, value: Option<ExprType>) -> Option<Code>
    requires { IfSome value (IsKnownType types.now) }
    ensures { result ≡ told (spec.condition_rules (option_map (meaning_of types.now) value)) }
{
    match value {
        Some(ty) => {
            if is_lock(types, &ty) {
                Some(Code::MutexValue)
            } else {
                unless(
                    is_integer(types, &ty) || is_pointer(types, &ty),
                    Code::Mismatch,
                )
            }
        }
        None => None,
    }
}

/// The code of the value of a `switch`: `Code::MutexValue` of a mutex or condition variable, `Code::Mismatch`
/// of what is no integer (C99 6.8.4.2, 1).
pub fn switch_code(types: &TypeTable, value: Option<ExprType>) -> Option<Code>
    requires { IfSome value (IsKnownType types.now) }
    ensures { result ≡ told (spec.switch_rules (option_map (meaning_of types.now) value)) }
{
    match value {
        Some(ty) => {
            if is_lock(types, &ty) {
                Some(Code::MutexValue)
            } else {
                unless(is_integer(types, &ty), Code::Mismatch)
            }
        }
        None => None,
    }
}

/// The code of an expression whose value is dropped, as that of an expression statement (C99 6.8.3, 6.8.5.3):
/// `Code::MutexValue` of a mutex or condition variable.
pub fn dropped_code(types: &TypeTable, value: Option<ExprType>) -> Option<Code>
    requires { IfSome value (IsKnownType types.now) }
    ensures { result ≡ told (spec.dropped_rules (option_map (meaning_of types.now) value)) }
{
    match value {
        Some(ty) => unless(!is_lock(types, &ty), Code::MutexValue),
        None => None,
    }
}

/// The code of `return;`: `Code::Mismatch` where the function's result isn't `void` (C99 6.8.6.4, 1).
pub fn return_code(types: &TypeTable, returned: Option<TypeId>) -> Option<Code>
    requires { IfSome returned (IsKnown types.now) }
    ensures { result ≡ told (spec.return_rules (option_map (meaning types.now) returned) spec.Nothing) }
{
    match returned {
        Some(t) => unless(is_void(types, &ExprType::Listed(t)), Code::Mismatch),
        None => None,
    }
}

/// The code of a `return` with a value: `Code::Mismatch` where the function's result is `void`
/// (C99 6.8.6.4, 1), else that of the value's conversion to it, which `convert_code` tells.
pub fn return_value_code(
    types: &TypeTable,
    returned: Option<TypeId>,
    conversion: Option<Code>,
) -> Option<Code>
    requires { IfSome returned (IsKnown types.now) }
    ensures { (broken : List Breach) → conversion ≡ told broken → result
        ≡ told (spec.return_rules (option_map (meaning types.now) returned) (spec.Converted broken)) }
{
    match returned {
        Some(t) => {
            if is_void(types, &ExprType::Listed(t)) {
                Some(Code::Mismatch)
            } else {
                conversion
            }
        }
        None => None,
    }
}
