//! The rules of `declarator[size]` (C99 6.7.5.2).
ghost use Rattle.std.specs.Prelude.{◌≡◌, ◌*◌, ℕ, Some, None, true, IfSome, nat_le};
ghost use Rattle.std.specs.Option.{option_map};
ghost use Rattle.lk_types.specs.Table.{IsKnown};
ghost use Rattle.lk_typed.specs.DeclaratorRules as spec;
ghost use Rattle.lk_typed.specs.Env.{Env};
ghost use Rattle.lk_typed.specs.Meaning.{meaning};
ghost use Rattle.lk_typed.specs.Sizes.{is_complete as spec_complete};
ghost use Rattle.lk_typed.specs.Ty.{Ty, Array};
ghost use Rattle.lk_check_decl.specs.Arrays.{size_of, is_in_range, IsCount, IsSize};
ghost use Rattle.lk_check_decl.specs.Breaches.{told};

use crate::breaches::unless;
use lk_base::Code;
use lk_typed::{Constant, form, lesser};
use lk_types::{CType, TypeId, TypeTable};

/// The most elements that an array has, those of arrays in it counted.
pub const MOST_ELEMENTS: u64 = 1_048_576;

/// What stands between the brackets of an array.
#[derive(Clone, Copy)]
pub enum ArraySize {
    /// Nothing.
    Absent,
    /// An expression in which a fault stands.
    Faulty,
    /// An expression, and what it is as an integer constant expression (C99 6.6, 6).
    Written(Constant),
}

/// The product of a count with another one, or nothing where it is more than an array may have.
#[tactic(auto, unfolding(lk_typed::specs::DeclaratorRules::most_elements))]
fn times(count: u64, each: Option<u64>) -> Option<u64>
    ensures { (n : ℕ) → IsCount n each → IsCount (count * n) result }
{
    match each {
        Some(each) => match count.checked_mul(each) {
            Some(product) => {
                if product <= MOST_ELEMENTS {
                    Some(product)
                } else {
                    None
                }
            }
            None => None,
        },
        None => { if count == 0 { Some(0) } else { None } }
    }
}

/// How many elements that are no arrays a type has, or nothing where they are more than an array may have.
#[tactic(auto, unfolding(lk_typed::specs::DeclaratorRules::most_elements))]
fn elements(types: &TypeTable, t: TypeId) -> Option<u64>
    requires { IsKnown types.now t }
    ensures { IsCount (spec.elements (meaning types.now t)) result }
{
    match form(types, t) {
        CType::Array(element, count) => times(*count, elements(types, *element)),
        CType::Void
        | CType::Int(_)
        | CType::ThreadId
        | CType::Mutex
        | CType::Cond
        | CType::Pointer(_)
        | CType::Struct(_)
        | CType::Function { .. }
        | CType::Opaque(_) => Some(1),
    }
}

/// Whether so many elements of a type, those of arrays in it counted, are no more than an array may have.
fn is_few(types: &TypeTable, count: u64, element: Option<TypeId>) -> bool
    requires { IfSome element (IsKnown types.now) }
    ensures { result ≡ spec.is_few count (option_map (meaning types.now) element) }
{
    match element {
        Some(t) => times(count, elements(types, t)).is_some(),
        None => true,
    }
}

/// Whether so many elements of a type, those of arrays in it counted, are no more than an array may have.
#[tactic(auto, unfolding(lk_typed::specs::DeclaratorRules::most_elements))]
pub(crate) fn has_few(types: &TypeTable, count: u64, element: TypeId) -> bool
    requires { IsKnown types.now element }
    ensures { result ≡ nat_le (count * spec.elements (meaning types.now element)) spec.most_elements }
{
    times(count, elements(types, element)).is_some()
}

/// A value as the size of an array, or nothing where it isn't from 1 to `MOST_ELEMENTS`.
#[tactic(auto, unfolding(lk_typed::specs::DeclaratorRules::most_elements))]
fn count_of(value: i128) -> Option<u64>
    ensures { IsSize value result }
{
    if value < 1 || value > 1_048_576 {
        None
    } else {
        Some(value as u64)
    }
}

/// Whether a size is a constant in range, and with the arrays inside not too many elements; it is missing
/// only where that is admitted.
fn has_size(
    types: &TypeTable,
    may_be_absent: bool,
    element: Option<TypeId>,
    size: ArraySize,
) -> bool
    requires { IfSome element (IsKnown types.now) }
    ensures { result ≡ spec.has_size may_be_absent (option_map (meaning types.now) element) (size_of size) }
{
    match size {
        ArraySize::Absent => may_be_absent,
        ArraySize::Faulty => true,
        ArraySize::Written(Constant::NotConstant | Constant::Undefined) => false,
        ArraySize::Written(Constant::Known(value)) => match count_of(value) {
            Some(count) => is_few(types, count, element),
            None => false,
        },
    }
}

/// The code of an array whose elements have this type, which is complete or not.
fn sized_code(
    types: &TypeTable,
    may_be_absent: bool,
    element: TypeId,
    is_complete: bool,
    size: ArraySize,
) -> Option<Code>
    requires { IsKnown types.now element }
    ensures sized { result ≡ None →
        spec.has_size may_be_absent (Some (meaning types.now element)) (size_of size) ≡ true }
    ensures rules { (env : Env) → is_complete ≡ spec_complete env.structs (meaning types.now element) → result
        ≡ told (spec.array_rules env may_be_absent (Some (meaning types.now element)) (size_of size)) }
{
    let incomplete = unless(is_complete, Code::Incomplete);
    let variable = unless(
        has_size(types, may_be_absent, Some(element), size),
        Code::VariableArray,
    );
    lesser(incomplete, variable)
}

/// The code of an array: `Code::Incomplete` where its elements are of no complete type (C99 6.7.5.2, 1),
/// `Code::VariableArray` where its size is no constant in range, or makes with the arrays inside too many
/// elements, or is missing though it may not be. `is_complete` says of the elements whether their type is
/// complete where the declarator begins.
pub fn array_code(
    types: &TypeTable,
    may_be_absent: bool,
    element: Option<TypeId>,
    is_complete: bool,
    size: ArraySize,
) -> Option<Code>
    requires { IfSome element (IsKnown types.now) }
    ensures sized { result ≡ None →
        spec.has_size may_be_absent (option_map (meaning types.now) element) (size_of size) ≡ true }
    ensures rules { (env : Env) →
        IfSome element (λ t. is_complete ≡ spec_complete env.structs (meaning types.now t)) → result
        ≡ told (spec.array_rules env may_be_absent (option_map (meaning types.now) element) (size_of size)) }
{
    match element {
        Some(t) => sized_code(types, may_be_absent, t, is_complete, size),
        None => unless(
            has_size(types, may_be_absent, None, size),
            Code::VariableArray,
        ),
    }
}

/// How many elements an array has by its size: 0 where none is written, nothing
/// where it is no constant in range.
pub fn array_count(size: ArraySize) -> Option<u64>
    ensures { is_in_range size ≡ true → (t : Ty) →
        option_map (Array t) result ≡ spec.array_type (size_of size) t }
{
    match size {
        ArraySize::Absent => Some(0),
        ArraySize::Faulty | ArraySize::Written(Constant::NotConstant | Constant::Undefined) => None,
        ArraySize::Written(Constant::Known(value)) => count_of(value),
    }
}
