//! What the actions of points take and give.
ghost use Rattle.std.specs.Prelude.{◌↔◌, ◌<◌, ◌⊎◌, IsTrue, length};
ghost use Rattle.lk_facts.specs.InRange.{IsActionInRange, sizes_of};
ghost use Rattle.lk_facts.specs.Typed.{GivesInt, GivesNone, IsTyped, PointsToForm};
ghost use Rattle.lk_point_types.specs.Each.{FillsItsPlace};
ghost use Rattle.lk_types.specs.declared.c_type.CType.TheVariants.{Cond, Mutex};

use crate::calls::{are_two_threads, calls_function, calls_pointer, is_start_routine};
use crate::cells::{gives_slot, is_field, is_read, is_return, is_write};
use crate::conversions::is_conversion;
use crate::fills::points_to_place;
use crate::objects::{is_allocated, is_count, is_object_in, points_to_function, points_to_root};
use crate::operators::{is_binary, is_index, is_tested, is_unary};
use crate::readers::{
    gives_int, gives_none, gives_number, gives_pointer, gives_result, gives_thread, gives_type,
    has_number, points_to_char, points_to_cond, points_to_mutex, points_to_thread, points_to_void,
};
use lk_facts::{Action, Points};

/// Whether a point gives a pointer to a mutex or to a condition variable.
fn points_to_lock(points: &Points, a: u32) -> bool
    requires { a < length points.now.points }
    ensures { IsTrue result ↔ (PointsToForm points.now a Mutex ⊎ PointsToForm points.now a Cond) }
{
    points_to_mutex(points, a) || points_to_cond(points, a)
}

/// Whether a point gives an `int` or nothing.
fn gives_int_or_none(points: &Points, p: u32) -> bool
    requires { p < length points.now.points }
    ensures { IsTrue result ↔ (GivesInt points.now p ⊎ GivesNone points.now p) }
{
    gives_int(points, p) || gives_none(points, p)
}

/// Whether what the action of a point of a function takes and gives has the types that it needs
/// (C99 6.3, 6.5, 6.8.6.4, 7.20; POSIX pthread_*).
pub(crate) fn is_typed(points: &Points, p: u32, f: u32, action: &Action) -> bool
    requires p { p < length points.now.points }
    requires action { IsActionInRange (sizes_of points.now) action.now }
    requires filled { FillsItsPlace points.now action.now }
    ensures { IsTrue result ↔ IsTyped points.now p f action.now }
{
    match action {
        Action::Value { number, ty } => {
            gives_type(points, p, *ty) && has_number(points, *ty, *number)
        }
        Action::Null { ty } => gives_type(points, p, *ty) && gives_pointer(points, p),
        Action::Func { function } => points_to_function(points, p, *function),
        Action::SelfId => gives_thread(points, p),
        Action::Root(r) => is_object_in(points, f, *r) && points_to_root(points, p, *r),
        Action::Text(r) => points_to_root(points, p, *r),
        Action::Field { a, member } => is_field(points, *a, *member, p),
        Action::Index { a, b, into } => is_index(points, *into, *a, *b, p),
        Action::Read { a, .. } => is_read(points, *a, p),
        Action::Write { a, b, .. } => is_write(points, *a, *b) && gives_none(points, p),
        Action::SlotRead(slot) => gives_slot(points, f, *slot, p),
        Action::SlotWrite { slot, a } => {
            gives_slot(points, f, *slot, *a) && gives_none(points, p)
        }
        Action::Unary { op, a } => is_unary(points, *op, *a, p),
        Action::Binary { op, a, b } => is_binary(points, *op, *a, *b, p),
        Action::Compute { args, ty, equal } => {
            gives_result(points, p, *ty) && (!*equal || are_two_threads(points, args.list()))
        }
        Action::Convert { a, ty } => gives_type(points, p, *ty) && is_conversion(points, *a, p),
        Action::Branch(a) => is_tested(points, *a) && gives_none(points, p),
        Action::Switch { a, .. } => gives_number(points, *a) && gives_none(points, p),
        Action::Skip | Action::ExitThread | Action::ExitProcess => gives_none(points, p),
        Action::Call { function, args } => calls_function(points, *function, args.list(), p),
        Action::PointerCall { a, args } => calls_pointer(points, *a, args.list(), p),
        Action::Return(a) => is_return(points, f, *a) && gives_none(points, p),
        Action::Create { function, a } => {
            is_start_routine(points, *function)
                && points_to_void(points, *a)
                && gives_int(points, p)
        }
        Action::StoreId(a) => points_to_thread(points, *a) && gives_none(points, p),
        Action::Join(a) | Action::Detach(a) => gives_thread(points, *a) && gives_int(points, p),
        Action::Lock(a) | Action::Unlock(a) => points_to_mutex(points, *a) && gives_int(points, p),
        Action::Release { cond, mutex } => {
            points_to_cond(points, *cond) && points_to_mutex(points, *mutex) && gives_int(points, p)
        }
        Action::Retake(a) => points_to_mutex(points, *a) && gives_none(points, p),
        Action::Init(a) => points_to_lock(points, *a) && gives_int_or_none(points, p),
        Action::Destroy(a) => points_to_lock(points, *a) && gives_int(points, p),
        Action::Signal(a) => points_to_cond(points, *a) && gives_int(points, p),
        Action::Allocate {
            ty,
            count,
            root,
            ..
        } => {
            is_count(points, *count)
                && is_allocated(points, p, *root, *ty, *count)
                && points_to_void(points, p)
        }
        Action::Free(a) => points_to_void(points, *a) && gives_none(points, p),
        Action::Scan(a) => points_to_char(points, *a) && gives_int_or_none(points, p),
        Action::Fill { a, place, .. } => {
            points_to_place(points, *a, *place) && gives_none(points, p)
        }
    }
}
