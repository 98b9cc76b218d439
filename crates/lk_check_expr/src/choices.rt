//! `?:` and the comma (C99 6.5.15, 6.5.17). Operands are values, as `value` gives them.
ghost use Rattle.std.specs.Prelude.{◌≡◌, ◌&&◌};
ghost use Rattle.lk_types.specs.Table.{Table};
ghost use Rattle.lk_typed.specs.Operators as spec;
ghost use Rattle.lk_typed.specs.Ty.{is_void as spec_is_void};
ghost use Rattle.lk_typed.specs.Typing.{value_of_type};
ghost use Rattle.lk_typed.specs.Codes.{arm_code};
ghost use Rattle.lk_typed.specs.Meaning.{meaning_of, IsKnownType, IsReady};
ghost use Rattle.lk_typed.specs.Typings.{ForBoth, ForEach, IsOperand, IsResult, IsVerdict};

use crate::constants::choice_constant;
use crate::operators::{condition_code, either, is_pointer_beside_null};
use lk_arith::usual;
use lk_base::Code;
use lk_typed::{
    Constant, ExprType, Typed, Verdict, are_same_pointers, are_void_and_object, by_row, code_if,
    has_lock, is_lock, is_void, kind_of, lesser, unless,
};
use lk_types::{TypeId, TypeTable};

/// What `?:` gives of two integers (C99 6.5.15, 5).
fn chosen_integer(types: &TypeTable, c: Constant, a: &Typed, b: &Typed) -> Option<Typed>
    requires ready { IsReady types.now }
    requires first { IsOperand types.now a.now }
    requires second { IsOperand types.now b.now }
    ensures { ForBoth types.now a.now b.now (λ x y. IsResult types.now result (spec.chosen_integer c x y)) }
{
    match kind_of(types, &a.ty) {
        Some(first) => match kind_of(types, &b.ty) {
            Some(second) => {
                let kind = usual(first, second);
                let constant = choice_constant(kind, c, a.constant, b.constant);
                Some(Typed::integer(kind, constant))
            }
            None => None,
        },
        None => None,
    }
}

/// A value of a type, where that is taken.
fn of_type_if(taken: bool, ty: ExprType) -> Option<Typed>
    ensures { (table : Table) → IsKnownType table ty →
        IsResult table result (spec.if_taken taken (value_of_type (meaning_of table ty))) }
{
    if taken {
        Some(Typed::of_type(ty))
    } else {
        None
    }
}

/// Whether both are `void`.
fn are_void(types: &TypeTable, a: &ExprType, b: &ExprType) -> bool
    requires a { IsKnownType types.now a.now }
    requires b { IsKnownType types.now b.now }
    ensures { result ≡ spec_is_void (meaning_of types.now a.now) && spec_is_void (meaning_of types.now b.now) }
{
    is_void(types, a) && is_void(types, b)
}

/// What `?:` gives of two values that are no integers (C99 6.5.15, 3 and 6).
fn chosen_other(types: &TypeTable, a: &Typed, b: &Typed) -> Option<Typed>
    requires ready { IsReady types.now }
    requires first { IsOperand types.now a.now }
    requires second { IsOperand types.now b.now }
    ensures { ForBoth types.now a.now b.now (λ x y. IsResult types.now result (spec.chosen_other x y)) }
{
    let both_void = are_void(types, &a.ty, &b.ty);
    let same = are_same_pointers(types, &a.ty, &b.ty);
    let null_behind = is_pointer_beside_null(types, a, b);
    let null_before = is_pointer_beside_null(types, b, a);
    let void_and_object = are_void_and_object(types, &a.ty, &b.ty);
    let line_1 = of_type_if(both_void, ExprType::Listed(TypeId::VOID));
    let line_2 = of_type_if(same, a.ty);
    let line_3 = of_type_if(null_behind, a.ty);
    let line_4 = of_type_if(null_before, b.ty);
    let line_5 = of_type_if(void_and_object, ExprType::PointerTo(TypeId::VOID));
    let from_4 = either(line_4, line_5);
    let from_3 = either(line_3, from_4);
    let from_2 = either(line_2, from_3);
    either(line_1, from_2)
}

/// The code of the arms of `?:`: `Code::MutexValue` for one that is a mutex or condition variable, else
/// `Code::Mismatch` where no line takes them.
fn arm_code(has_lock: bool, taken: bool) -> Option<Code>
    ensures { result ≡ arm_code has_lock taken }
{
    if taken {
        None
    } else if has_lock {
        Some(Code::MutexValue)
    } else {
        Some(Code::Mismatch)
    }
}

/// `?:` between three values: its typing, or the least code that holds.
pub fn choice(types: &TypeTable, condition: &Typed, a: &Typed, b: &Typed) -> Verdict
    requires ready { IsReady types.now }
    requires condition { IsOperand types.now condition.now }
    requires first { IsOperand types.now a.now }
    requires second { IsOperand types.now b.now }
    ensures { ForEach types.now condition.now (λ z.
        ForBoth types.now a.now b.now (λ x y. IsVerdict types.now result (spec.choice_rule z x y))) }
{
    let operand = condition_code(types, &condition.ty);
    let integer = chosen_integer(types, condition.constant, a, b);
    let other = chosen_other(types, a, b);
    let row = either(integer, other);
    let lock = has_lock(types, &a.ty, &b.ty);
    let taken = row.is_some();
    let arms = arm_code(lock, taken);
    let code = lesser(operand, arms);
    by_row(code, row)
}

/// The comma: the left operand is dropped, the right one is the value, and no place. A mutex is no value.
pub fn comma(types: &TypeTable, left: &Typed, right: &Typed) -> Verdict
    requires left { IsOperand types.now left.now }
    requires right { IsOperand types.now right.now }
    ensures { ForBoth types.now left.now right.now (λ x y. IsVerdict types.now result (spec.comma_rule x y)) }
{
    let left_lock = is_lock(types, &left.ty);
    let right_lock = is_lock(types, &right.ty);
    let first = code_if(left_lock, Code::MutexValue);
    let second = code_if(right_lock, Code::MutexValue);
    let code = lesser(first, second);
    let typed = Typed::of_type(right.ty);
    unless(code, typed)
}
