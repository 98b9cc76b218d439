//! Expressions whose values are converted to a type (C99 6.5.16.1; 6.7.8, 11; 6.8.6.4, 3).
ghost use Rattle.std.specs.Prelude.{◌≡◌, false, option_map, IfSome};
ghost use Rattle.lk_types.specs.Table.{Table, IsKnown};
ghost use Rattle.lk_typed.specs.Meaning.{meaning, meaning_of, IsKnownType};
ghost use Rattle.lk_typed.specs.Names.{role_in, IsKnownRole};
ghost use Rattle.lk_check_unit.specs.Converting.{role_of};

use lk_found::Stands;
use lk_typed::{ExprType, Role};
use lk_types::TypeId;

/// A type of the table, where it is known, as that of an expression.
pub(crate) fn listed(target: &Option<TypeId>) -> Option<ExprType>
    ensures value { (table : Table) → option_map (meaning_of table) result ≡
        option_map (meaning table) target.now }
    ensures known { (table : Table) → IfSome target.now (IsKnown table) → IfSome result (IsKnownType table) }
{
    match target {
        Some(t) => Some(ExprType::Listed(*t)),
        None => None,
    }
}

/// What an expression stands as that is converted to a type, where that is known.
fn role(target: &Option<ExprType>) -> Role
    ensures role { (table : Table) → role_in table result ≡
        role_of (option_map (meaning_of table) target.now) }
    ensures known { (table : Table) → IfSome target.now (IsKnownType table) → IsKnownRole table result }
{
    match target {
        Some(t) => Role::ConvertedTo(*t),
        None => Role::Operand,
    }
}

/// An expression that is converted to a type, where that is known, and in no size of an allocation.
pub(crate) fn stands_for(target: &Option<ExprType>) -> Stands
    ensures role { (table : Table) → role_in table result.role ≡
        role_of (option_map (meaning_of table) target.now) }
    ensures known { (table : Table) → IfSome target.now (IsKnownType table) → IsKnownRole table result.role }
    ensures in_size { result.in_size ≡ false }
{
    Stands {
        role: role(target),
        in_size: false,
    }
}
