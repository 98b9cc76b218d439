//! What conversions take and give (C99 6.3).
ghost use Rattle.std.specs.Prelude.{◌↔◌, ◌<◌, IsTrue, length};
ghost use Rattle.lk_facts.specs.Typed.{IsConversion};
ghost use Rattle.lk_point_types.specs.Conversions.{
  AreThreads,
  BecomesNumber,
  BecomesTruth,
  ConvertsNumber,
  ConvertsPointer,
  ConvertsValue,
  FromVoid,
  PointAlike,
  PointsToObject,
  ToVoid,
};

use crate::forms::is_object;
use crate::readers::{
    gives_kind, gives_number, gives_pointer, gives_thread, points_to, points_to_void, target,
};
use lk_base::Kind;
use lk_facts::Points;

/// Whether two points give pointers to one type.
fn point_alike(points: &Points, a: u32, p: u32) -> bool
    requires a { a < length points.now.points }
    requires p { p < length points.now.points }
    ensures { IsTrue result ↔ PointAlike points.now a p }
{
    match target(points, a) {
        Some(t) => points_to(points, p, t),
        None => false,
    }
}

/// Whether a point gives a pointer to an object.
fn points_to_object(points: &Points, a: u32) -> bool
    requires { a < length points.now.points }
    ensures { IsTrue result ↔ PointsToObject points.now a }
{
    match target(points, a) {
        Some(t) => is_object(points.types(), t),
        None => false,
    }
}

/// Whether two points give numbers.
fn becomes_number(points: &Points, a: u32, p: u32) -> bool
    requires a { a < length points.now.points }
    requires p { p < length points.now.points }
    ensures { IsTrue result ↔ BecomesNumber points.now a p }
{
    gives_number(points, a) && gives_number(points, p)
}

/// Whether one point gives a pointer and the other a truth value.
fn becomes_truth(points: &Points, a: u32, p: u32) -> bool
    requires a { a < length points.now.points }
    requires p { p < length points.now.points }
    ensures { IsTrue result ↔ BecomesTruth points.now a p }
{
    gives_pointer(points, a) && gives_kind(points, p, Kind::Bool)
}

/// Whether a number becomes a number, or a pointer a truth value.
fn converts_number(points: &Points, a: u32, p: u32) -> bool
    requires a { a < length points.now.points }
    requires p { p < length points.now.points }
    ensures { IsTrue result ↔ ConvertsNumber points.now a p }
{
    becomes_number(points, a, p) || becomes_truth(points, a, p)
}

/// Whether a pointer to an object becomes a `void *`.
fn to_void(points: &Points, a: u32, p: u32) -> bool
    requires a { a < length points.now.points }
    requires p { p < length points.now.points }
    ensures { IsTrue result ↔ ToVoid points.now a p }
{
    points_to_object(points, a) && points_to_void(points, p)
}

/// Whether a `void *` becomes a pointer to an object.
fn from_void(points: &Points, a: u32, p: u32) -> bool
    requires a { a < length points.now.points }
    requires p { p < length points.now.points }
    ensures { IsTrue result ↔ FromVoid points.now a p }
{
    points_to_void(points, a) && points_to_object(points, p)
}

/// Whether a pointer becomes one to its own type, one to an object a `void *`, or
/// a `void *` one to an object.
fn converts_pointer(points: &Points, a: u32, p: u32) -> bool
    requires a { a < length points.now.points }
    requires p { p < length points.now.points }
    ensures { IsTrue result ↔ ConvertsPointer points.now a p }
{
    point_alike(points, a, p) || to_void(points, a, p) || from_void(points, a, p)
}

/// Whether two points give thread ids.
fn are_threads(points: &Points, a: u32, p: u32) -> bool
    requires a { a < length points.now.points }
    requires p { p < length points.now.points }
    ensures { IsTrue result ↔ AreThreads points.now a p }
{
    gives_thread(points, a) && gives_thread(points, p)
}

/// Whether a number or a pointer is converted as C99 6.3 allows.
fn converts_value(points: &Points, a: u32, p: u32) -> bool
    requires a { a < length points.now.points }
    requires p { p < length points.now.points }
    ensures { IsTrue result ↔ ConvertsValue points.now a p }
{
    converts_number(points, a, p) || converts_pointer(points, a, p)
}

/// Whether a value is converted as C99 6.3 allows, or a thread id to its own type.
pub(crate) fn is_conversion(points: &Points, a: u32, p: u32) -> bool
    requires a { a < length points.now.points }
    requires p { p < length points.now.points }
    ensures { IsTrue result ↔ IsConversion points.now a p }
{
    converts_value(points, a, p) || are_threads(points, a, p)
}
