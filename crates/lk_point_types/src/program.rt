//! The types of a whole program.
ghost use Rattle.std.specs.Prelude.{◌↔◌, ◌<◌, IsTrue, length, ℕ};
ghost use Rattle.lk_facts.specs.Typed.{IsFunctionTyped};
ghost use Rattle.lk_point_types.specs.Each.{AreObjectsTyped, HasItsPlace, HasItsText, IsArgumentAt, IsCodeTyped, IsDataTyped, IsPointTyped};
ghost use Rattle.lk_point_types.specs.PointTypes.{HaveTypes};

use crate::actions::is_typed;
use crate::fills::has_its_place;
use crate::functions::is_function_typed;
use crate::roots::{is_argument, is_main_typed, is_text};
use lk_facts::{Action, Points};

/// Whether what a point takes and gives has the types that its action needs, and what it
/// fills is the place that it names.
fn is_point_typed(points: &Points, p: u32) -> bool
    requires { p < length points.now.points }
    ensures { IsTrue result ↔ (HasItsPlace points.now p × IsPointTyped points.now p) }
{
    let action = points.action(p);
    has_its_place(points, action) && is_typed(points, p, points.function(p), action)
}

/// Whether that holds of each point.
fn are_points_typed(points: &Points) -> bool
    ensures { IsTrue result ↔ ((p : ℕ) → HasItsPlace points.now p × IsPointTyped points.now p) }
{
    for p in 0..points.count() {
        if !is_point_typed(points, p) {
            return false;
        }
    }
    true
}

/// Whether the parameters and the result of each function have the types of its root.
fn are_functions_typed(points: &Points) -> bool
    ensures { IsTrue result ↔ ((f : ℕ) → f < length points.now.functions → IsFunctionTyped points.now f) }
{
    for f in 0..points.functions() {
        if !is_function_typed(points, f) {
            return false;
        }
    }
    true
}

/// Whether the bytes are there of the text to which a point gives a pointer.
fn has_its_text(points: &Points, p: u32) -> bool
    requires { p < length points.now.points }
    ensures { IsTrue result ↔ HasItsText points.now p }
{
    let Action::Text(r) = points.action(p) else {
        return true;
    };
    is_text(points, *r)
}

/// Whether that holds of each point.
fn have_texts(points: &Points) -> bool
    ensures { IsTrue result ↔ ((p : ℕ) → HasItsText points.now p) }
{
    for p in 0..points.count() {
        if !has_its_text(points, p) {
            return false;
        }
    }
    true
}

/// Whether the objects of main's arguments have their types.
fn are_arguments_typed(points: &Points) -> bool
    ensures { IsTrue result ↔ ((r : ℕ) → IsArgumentAt points.now r) }
{
    for r in 0..points.roots() {
        if !is_argument(points, points.root(r)) {
            return false;
        }
    }
    true
}

/// Whether each point and each function has the types that it asks for.
fn is_code_typed(points: &Points) -> bool
    ensures { IsTrue result ↔ IsCodeTyped points.now }
{
    are_points_typed(points) && are_functions_typed(points)
}

/// Whether texts and the objects of main's arguments have their types.
fn are_objects_typed(points: &Points) -> bool
    ensures { IsTrue result ↔ AreObjectsTyped points.now }
{
    have_texts(points) && are_arguments_typed(points)
}

/// Whether that holds, and the second parameter of `main` points to strings.
fn is_data_typed(points: &Points) -> bool
    ensures { IsTrue result ↔ IsDataTyped points.now }
{
    are_objects_typed(points) && is_main_typed(points)
}

/// Whether each point, function and text of a program has the types that its action or its declaration asks
/// for: the operands and the value of each operator, conversion, access and call
/// (C99 6.3, 6.5, 6.8.6.4, 7.20; POSIX pthread_*), the parameters and the result of each function
/// (C99 6.9.1), the bytes of each text (C99 6.4.5), and main's arguments (C99 5.1.2.2.1).
pub fn have_types(points: &Points) -> bool
    ensures { IsTrue result ↔ HaveTypes points.now }
{
    is_code_typed(points) && is_data_typed(points)
}
