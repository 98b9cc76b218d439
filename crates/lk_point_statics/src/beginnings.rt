//! What cells begin with, by their types.
ghost use Rattle.std.specs.Prelude.{◌≡◌, ◌↔◌, ◌<◌, ◌⊎◌, ℕ, IfSome, IsTrue, Some, length};
ghost use Rattle.lk_facts.specs.InRange.{IsInitialInRange, IsInitialValueInRange, sizes_of};
ghost use Rattle.lk_facts.specs.Lowered.{IsInitial, MayBegin};
ghost use Rattle.lk_facts.specs.Program.{root_of_function};
ghost use Rattle.lk_facts.specs.Typed.{IsForm, IsNumberOf, IsRootType};
ghost use Rattle.lk_types.specs.Equal.{IsAlike};
ghost use Rattle.lk_types.specs.Table.{IsKnown};
ghost use Rattle.lk_types.specs.declared.c_type.CType.TheVariants.{Cond, Mutex, Pointer};

use crate::parts::part_of;
use lk_arith::is_value;
use lk_facts::{Initial, InitialValue, Points};
use lk_types::{CType, TypeId, TypeTable};

/// Whether a type is of integers, and the number one of its values.
fn is_number_of(points: &Points, number: i128, t: TypeId) -> bool
    requires { IsKnown points.now.types t }
    ensures { IsTrue result ↔ IsNumberOf points.now number t }
{
    if let CType::Int(kind) = points.types().get(t) {
        is_value(*kind, number)
    } else {
        false
    }
}

/// What a type points to, where it is one of pointers.
fn target_of(types: &TypeTable, t: TypeId) -> Option<TypeId>
    requires { IsKnown types.now t }
    ensures target { IfSome result (λ u. IsForm types.now t (Pointer u)) }
    ensures only { (u : ℕ) → IsForm types.now t (Pointer u) → result ≡ Some u }
    ensures known { IfSome result (IsKnown types.now) }
{
    if let CType::Pointer(target) = types.get(t) {
        Some(*target)
    } else {
        None
    }
}

/// Whether a type is that of a function, but for the sizes of arrays.
fn is_type_of(points: &Points, function: u32, t: TypeId) -> bool
    requires known { IsKnown points.now.types t }
    requires function { function < length points.now.functions }
    ensures { IsTrue result ↔ ((form : ℕ) × ((r : ℕ) × (root_of_function points.now function ≡ Some r)
        × IsRootType points.now r form) × IsAlike points.now.types.types t form) }
{
    let form = points.root(points.function_root(function)).ty;
    points.types().are_alike(t, form)
}

/// Whether a type is that of mutexes or of condition variables.
fn is_ready_made(types: &TypeTable, t: TypeId) -> bool
    requires { IsKnown types.now t }
    ensures { IsTrue result ↔ (IsForm types.now t Mutex ⊎ IsForm types.now t Cond) }
{
    matches!(types.get(t), CType::Mutex | CType::Cond)
}

/// Whether a cell of a type may begin with a value.
fn may_begin(points: &Points, t: TypeId, value: &InitialValue) -> bool
    requires known { IsKnown points.now.types t }
    requires in_range { IsInitialValueInRange (sizes_of points.now) value.now }
    ensures { IsTrue result ↔ MayBegin points.now t value.now }
{
    if let InitialValue::Number(number) = value {
        return is_number_of(points, *number, t);
    }
    if let InitialValue::Ready = value {
        return is_ready_made(points.types(), t);
    }
    let Some(target) = target_of(points.types(), t) else {
        return false;
    };
    match value {
        InitialValue::Null | InitialValue::Address { .. } => true,
        InitialValue::Function(f) => is_type_of(points, *f, target),
        InitialValue::Number(_) | InitialValue::Ready => false,
    }
}

/// Whether a cell that an initialiser names is a part of its object, and may begin with its value.
pub(crate) fn is_initial(points: &Points, initial: &Initial) -> bool
    requires { IsInitialInRange (sizes_of points.now) initial.now }
    ensures { IsTrue result ↔ IsInitial points.now initial.now }
{
    match part_of(points, initial.root, initial.path.list()) {
        Some(t) => may_begin(points, t, &initial.value),
        None => false,
    }
}
