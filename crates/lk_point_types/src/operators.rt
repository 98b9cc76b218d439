//! The operands and the values of operators and conversions (C99 6.3, 6.5).
ghost use Rattle.std.specs.Prelude.{◌≡◌, ◌↔◌, ◌<◌, IfSome, IsTrue, Some, length, ℕ, ◌⊎◌};
ghost use Rattle.lk_base.specs.declared.kind.Kind.{Kind as KindIs};
ghost use Rattle.lk_facts.specs.Typed.{
  AreAlike,
  Compares,
  ComparesNumbers,
  GivesForm,
  GivesNumber,
  GivesPointer,
  IsBinary,
  IsComparison,
  IsIndex,
  IsShift,
  IsUnary,
  Moves,
  PointsTo,
  PointsToForm,
};
ghost use Rattle.lk_types.specs.Table.{IsKnown};
ghost use Rattle.lk_types.specs.declared.c_type.CType.TheVariants.{Array, Int};

use crate::readers::{
    gives_int, gives_kind, gives_number, gives_pointer, number, points_to, target, target_form,
};
use lk_arith::{Op, UnaryOp};
use lk_base::Kind;
use lk_facts::Points;
use lk_types::{CType, TypeId};

/// Whether both operands and the value are numbers of one kind.
fn are_alike(points: &Points, a: u32, b: u32, p: u32) -> bool
    requires a { a < length points.now.points }
    requires b { b < length points.now.points }
    requires p { p < length points.now.points }
    ensures { IsTrue result ↔ AreAlike points.now a b p }
{
    match number(points, a) {
        Some(kind) => gives_kind(points, b, kind) && gives_kind(points, p, kind),
        None => false,
    }
}

/// Whether a pointer moves by a number, and stays of its type.
fn moves(points: &Points, a: u32, b: u32, p: u32) -> bool
    requires a { a < length points.now.points }
    requires b { b < length points.now.points }
    requires p { p < length points.now.points }
    ensures { IsTrue result ↔ Moves points.now a b p }
{
    match target(points, a) {
        Some(t) => gives_number(points, b) && points_to(points, p, t),
        None => false,
    }
}

/// Whether two pointers to one type are compared or subtracted, which gives a number of a kind.
fn compares(points: &Points, kind: Kind, a: u32, b: u32, p: u32) -> bool
    requires a { a < length points.now.points }
    requires b { b < length points.now.points }
    requires p { p < length points.now.points }
    ensures { IsTrue result ↔ Compares points.now kind a b p }
{
    match target(points, a) {
        Some(t) => points_to(points, b, t) && gives_kind(points, p, kind),
        None => false,
    }
}

/// Whether two numbers of one kind are compared.
fn compares_numbers(points: &Points, a: u32, b: u32, p: u32) -> bool
    requires a { a < length points.now.points }
    requires b { b < length points.now.points }
    requires p { p < length points.now.points }
    ensures { IsTrue result ↔ ComparesNumbers points.now a b p }
{
    match number(points, a) {
        Some(kind) => gives_kind(points, b, kind) && gives_int(points, p),
        None => false,
    }
}

/// Whether two numbers of one kind are compared, or two pointers to one type (C99 6.5.8, 6.5.9).
fn is_comparison(points: &Points, a: u32, b: u32, p: u32) -> bool
    requires a { a < length points.now.points }
    requires b { b < length points.now.points }
    requires p { p < length points.now.points }
    ensures { IsTrue result ↔ IsComparison points.now a b p }
{
    compares_numbers(points, a, b, p) || compares(points, Kind::Int, a, b, p)
}

/// Whether a number is shifted by another, and keeps its kind (C99 6.5.7).
fn is_shift(points: &Points, a: u32, b: u32, p: u32) -> bool
    requires a { a < length points.now.points }
    requires b { b < length points.now.points }
    requires p { p < length points.now.points }
    ensures { IsTrue result ↔ IsShift points.now a b p }
{
    match number(points, a) {
        Some(kind) => gives_number(points, b) && gives_kind(points, p, kind),
        None => false,
    }
}

/// Whether the operands and the value of a binary operator have types that it takes and
/// gives (C99 6.5.5 to 6.5.12).
pub(crate) fn is_binary(points: &Points, op: Op, a: u32, b: u32, p: u32) -> bool
    requires a { a < length points.now.points }
    requires b { b < length points.now.points }
    requires p { p < length points.now.points }
    ensures { IsTrue result ↔ IsBinary points.now op a b p }
{
    match op {
        Op::Multiply | Op::Divide | Op::Remainder | Op::And | Op::Xor | Op::Or => {
            are_alike(points, a, b, p)
        }
        Op::Add => are_alike(points, a, b, p) || moves(points, a, b, p),
        Op::Subtract => {
            are_alike(points, a, b, p)
                || moves(points, a, b, p)
                || compares(points, Kind::Long, a, b, p)
        }
        Op::ShiftLeft | Op::ShiftRight => is_shift(points, a, b, p),
        Op::Less | Op::Greater | Op::LessOrEqual | Op::GreaterOrEqual | Op::Equal | Op::NotEqual =>
            is_comparison(points, a, b, p),
    }
}

/// Whether a point gives what `!`, `if` and loops take: a number or a pointer.
pub(crate) fn is_tested(points: &Points, a: u32) -> bool
    requires { a < length points.now.points }
    ensures { IsTrue result ↔ (GivesNumber points.now a ⊎ GivesPointer points.now a) }
{
    gives_number(points, a) || gives_pointer(points, a)
}

/// Whether the operand and the value are numbers of one kind.
fn keeps_kind(points: &Points, a: u32, p: u32) -> bool
    requires a { a < length points.now.points }
    requires p { p < length points.now.points }
    ensures { IsTrue result ↔ ((k : KindIs) × GivesForm points.now a (Int k) × GivesForm points.now p (Int k)) }
{
    match number(points, a) {
        Some(kind) => gives_kind(points, p, kind),
        None => false,
    }
}

/// Whether the operand and the value of a unary operator have types that it takes and gives (C99 6.5.3.3).
pub(crate) fn is_unary(points: &Points, op: UnaryOp, a: u32, p: u32) -> bool
    requires a { a < length points.now.points }
    requires p { p < length points.now.points }
    ensures { IsTrue result ↔ IsUnary points.now op a p }
{
    match op {
        UnaryOp::Plus | UnaryOp::Negate | UnaryOp::Complement => keeps_kind(points, a, p),
        UnaryOp::Not => is_tested(points, a) && gives_int(points, p),
    }
}

/// The type of the elements of a form, where it is that of arrays.
fn element_of(form: &CType) -> Option<TypeId>
    ensures element { IfSome result (λ e. (n : ℕ) × (form.now ≡ Array e n)) }
    ensures only { (e n : ℕ) → form.now ≡ Array e n → result ≡ Some e }
{
    match form {
        CType::Array(element, _) => Some(*element),
        CType::Void
        | CType::Int(_)
        | CType::ThreadId
        | CType::Mutex
        | CType::Cond
        | CType::Pointer(_)
        | CType::Struct(_)
        | CType::Function { .. }
        | CType::Opaque(_) => None,
    }
}

/// The type of the elements of the array to which a point gives a pointer.
fn target_element(points: &Points, a: u32) -> Option<TypeId>
    requires { a < length points.now.points }
    ensures element { IfSome result (λ e. (n : ℕ) × PointsToForm points.now a (Array e n)) }
    ensures only { (e n : ℕ) → PointsToForm points.now a (Array e n) → result ≡ Some e }
    ensures known { IfSome result (IsKnown points.now.types) }
{
    match target_form(points, a) {
        Some(form) => element_of(form),
        None => None,
    }
}

/// Whether a pointer to an array and an index give a pointer to one of its elements (C99 6.5.2.1).
fn is_element(points: &Points, a: u32, b: u32, p: u32) -> bool
    requires a { a < length points.now.points }
    requires b { b < length points.now.points }
    requires p { p < length points.now.points }
    ensures { IsTrue result ↔
        ((e n : ℕ) × PointsToForm points.now a (Array e n) × GivesNumber points.now b ×
        PointsTo points.now p e) }
{
    match target_element(points, a) {
        Some(element) => gives_number(points, b) && points_to(points, p, element),
        None => false,
    }
}

/// Whether the operands and the value of an Index have types that it takes and gives (C99 6.5.2.1).
pub(crate) fn is_index(points: &Points, into: bool, a: u32, b: u32, p: u32) -> bool
    requires a { a < length points.now.points }
    requires b { b < length points.now.points }
    requires p { p < length points.now.points }
    ensures { IsTrue result ↔ IsIndex points.now into a b p }
{
    if into {
        is_element(points, a, b, p)
    } else {
        moves(points, a, b, p)
    }
}
