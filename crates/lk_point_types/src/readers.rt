//! What points give.
ghost use Rattle.std.specs.Prelude.{◌≡◌, ◌<◌, ◌↔◌, ℕ, IsTrue, IfSome, MatchOption, length, Some};
ghost use Rattle.lk_base.specs.declared.kind.Kind.{Kind as KindIs};
ghost use Rattle.lk_base.specs.declared.kind.Kind.TheVariants as kind;
ghost use Rattle.lk_facts.specs.Program.{value_type_at};
ghost use Rattle.lk_facts.specs.Typed.{
  Gives,
  GivesForm,
  GivesInt,
  GivesNone,
  GivesNumber,
  GivesPointer,
  GivesResult,
  GivesScalar,
  IsNumberOf,
  PointsTo,
  PointsToForm,
};
ghost use Rattle.lk_point_types.specs.Each.{StandsForTargets};
ghost use Rattle.lk_types.specs.Table.{IsKnown, HasKnown};
ghost use Rattle.lk_types.specs.declared.c_type.CType.{CType as Form};
ghost use Rattle.lk_types.specs.declared.c_type.CType.TheVariants.{Int, Pointer, ThreadId, Mutex, Cond, Void};

use crate::forms::{form, kind_of, target_of};
use lk_arith::is_value;
use lk_base::Kind;
use lk_facts::Points;
use lk_types::{CType, TypeId};

/// Whether a point gives no value.
pub(crate) fn gives_none(points: &Points, p: u32) -> bool
    requires { p < length points.now.points }
    ensures { IsTrue result ↔ GivesNone points.now p }
{
    points.value_type(p).is_none()
}

/// Whether a point gives a value of just this type.
pub(crate) fn gives_type(points: &Points, p: u32, t: TypeId) -> bool
    requires { p < length points.now.points }
    ensures { IsTrue result ↔ (value_type_at points.now p ≡ Some t) }
{
    match points.value_type(p) {
        Some(given) => given == t,
        None => false,
    }
}

/// Whether a point gives a value of a type, but for the sizes of arrays.
pub(crate) fn gives(points: &Points, p: u32, t: TypeId) -> bool
    requires point { p < length points.now.points }
    requires known { IsKnown points.now.types t }
    ensures { IsTrue result ↔ Gives points.now p t }
{
    match points.value_type(p) {
        Some(given) => points.types().are_alike(given, t),
        None => false,
    }
}

/// The form of the type of a point's value, where it gives one.
pub(crate) fn given_form(points: &Points, p: u32) -> Option<&CType>
    requires { p < length points.now.points }
    ensures { MatchOption result ((is : Form) → GivesForm points.now p is → ⊥)
        (λ is. GivesForm points.now p is.now) }
{
    let t = points.value_type(p)?;
    Some(form(points.types(), t))
}

/// The kind of the number that a point gives.
pub(crate) fn number(points: &Points, p: u32) -> Option<Kind>
    requires { p < length points.now.points }
    ensures form { IfSome result (λ k. GivesForm points.now p (Int k)) }
    ensures only { (k : KindIs) → GivesForm points.now p (Int k) → result ≡ Some k }
{
    kind_of(points.types(), points.value_type(p)?)
}

/// The type that the pointer points to that a point gives.
pub(crate) fn target(points: &Points, p: u32) -> Option<TypeId>
    requires { p < length points.now.points }
    ensures form { IfSome result (λ t. GivesForm points.now p (Pointer t)) }
    ensures only { (t : ℕ) → GivesForm points.now p (Pointer t) → result ≡ Some t }
    ensures same { IfSome result (PointsTo points.now p) }
    ensures alike { IfSome result (StandsForTargets points.now p) }
    ensures known { IfSome result (IsKnown points.now.types) }
{
    let types = points.types();
    types.is_table();
    target_of(types, points.value_type(p)?)
}

/// The form of the type that the pointer points to that a point gives.
pub(crate) fn target_form(points: &Points, p: u32) -> Option<&CType>
    requires { p < length points.now.points }
    ensures form { MatchOption result ((is : Form) → PointsToForm points.now p is → ⊥)
        (λ is. PointsToForm points.now p is.now) }
    ensures known { IfSome result (λ is. HasKnown points.now.types is.now) }
{
    match target(points, p) {
        Some(t) => Some(form(points.types(), t)),
        None => None,
    }
}

/// Whether a point gives a pointer to a type, but for the sizes of arrays.
pub(crate) fn points_to(points: &Points, p: u32, t: TypeId) -> bool
    requires point { p < length points.now.points }
    requires known { IsKnown points.now.types t }
    ensures { IsTrue result ↔ PointsTo points.now p t }
{
    match target(points, p) {
        Some(is) => points.types().are_alike(is, t),
        None => false,
    }
}

/// Whether a point gives a number.
pub(crate) fn gives_number(points: &Points, p: u32) -> bool
    requires { p < length points.now.points }
    ensures { IsTrue result ↔ GivesNumber points.now p }
{
    number(points, p).is_some()
}

/// Whether a point gives a number of a kind.
pub(crate) fn gives_kind(points: &Points, p: u32, kind: Kind) -> bool
    requires { p < length points.now.points }
    ensures { IsTrue result ↔ GivesForm points.now p (Int kind) }
{
    match number(points, p) {
        Some(given) => given == kind,
        None => false,
    }
}

/// Whether a point gives an `int`.
pub(crate) fn gives_int(points: &Points, p: u32) -> bool
    requires { p < length points.now.points }
    ensures { IsTrue result ↔ GivesInt points.now p }
{
    gives_kind(points, p, Kind::Int)
}

/// Whether a point gives a pointer.
pub(crate) fn gives_pointer(points: &Points, p: u32) -> bool
    requires { p < length points.now.points }
    ensures { IsTrue result ↔ GivesPointer points.now p }
{
    target(points, p).is_some()
}

/// Whether a point gives a thread id.
pub(crate) fn gives_thread(points: &Points, p: u32) -> bool
    requires { p < length points.now.points }
    ensures { IsTrue result ↔ GivesForm points.now p ThreadId }
{
    match given_form(points, p) {
        Some(form) => matches!(form, CType::ThreadId),
        None => false,
    }
}

/// Whether a point gives a number, a pointer or a thread id.
pub(crate) fn gives_scalar(points: &Points, p: u32) -> bool
    requires { p < length points.now.points }
    ensures { IsTrue result ↔ GivesScalar points.now p }
{
    gives_number(points, p) || gives_pointer(points, p) || gives_thread(points, p)
}

/// Whether a point gives the result of a function that returns a type: nothing for `void`.
pub(crate) fn gives_result(points: &Points, p: u32, t: TypeId) -> bool
    requires point { p < length points.now.points }
    requires known { IsKnown points.now.types t }
    ensures { IsTrue result ↔ GivesResult points.now p t }
{
    let is_void = matches!(form(points.types(), t), CType::Void);
    is_void && gives_none(points, p) || gives(points, p, t)
}

/// Whether a point gives a pointer to `void`.
pub(crate) fn points_to_void(points: &Points, p: u32) -> bool
    requires { p < length points.now.points }
    ensures { IsTrue result ↔ PointsToForm points.now p Void }
{
    match target_form(points, p) {
        Some(form) => matches!(form, CType::Void),
        None => false,
    }
}

/// Whether a point gives a pointer to a thread id.
pub(crate) fn points_to_thread(points: &Points, p: u32) -> bool
    requires { p < length points.now.points }
    ensures { IsTrue result ↔ PointsToForm points.now p ThreadId }
{
    match target_form(points, p) {
        Some(form) => matches!(form, CType::ThreadId),
        None => false,
    }
}

/// Whether a point gives a pointer to a mutex.
pub(crate) fn points_to_mutex(points: &Points, p: u32) -> bool
    requires { p < length points.now.points }
    ensures { IsTrue result ↔ PointsToForm points.now p Mutex }
{
    match target_form(points, p) {
        Some(form) => matches!(form, CType::Mutex),
        None => false,
    }
}

/// Whether a point gives a pointer to a condition variable.
pub(crate) fn points_to_cond(points: &Points, p: u32) -> bool
    requires { p < length points.now.points }
    ensures { IsTrue result ↔ PointsToForm points.now p Cond }
{
    match target_form(points, p) {
        Some(form) => matches!(form, CType::Cond),
        None => false,
    }
}

/// Whether a point gives a pointer to a plain `char`.
pub(crate) fn points_to_char(points: &Points, p: u32) -> bool
    requires { p < length points.now.points }
    ensures { IsTrue result ↔ PointsToForm points.now p (Int kind.Char) }
{
    match target_form(points, p) {
        Some(form) => matches!(form, CType::Int(Kind::Char)),
        None => false,
    }
}

/// Whether a type is of integers, and a number is one of its values.
pub(crate) fn has_number(points: &Points, t: TypeId, number: i128) -> bool
    requires { IsKnown points.now.types t }
    ensures { IsTrue result ↔ IsNumberOf points.now number t }
{
    match kind_of(points.types(), t) {
        Some(kind) => is_value(kind, number),
        None => false,
    }
}
