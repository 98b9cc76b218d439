//! Whether points stand in a function.
ghost use Rattle.std.specs.Prelude.{◌≡◌, ◌↔◌, ◌<◌, IsTrue, All, Some, length};
ghost use Rattle.lk_facts.specs.InRange.{AllOperands};
ghost use Rattle.lk_facts.specs.Program.{function_at};
ghost use Rattle.lk_point_ways.specs.Kept as kept;

use lk_facts::{Action, Points};

/// Whether a point stands in a function, or in none where that is the number of functions.
pub(crate) fn stands(points: &Points, function: u32, p: u32) -> bool
    requires { p < length points.now.points }
    ensures { IsTrue result ↔ (function_at points.now p ≡ Some function) }
{
    points.function(p) == function
}

/// Whether points stand in a function.
fn all_stand(points: &Points, function: u32, list: &[u32]) -> bool
    requires { All (λ p. p < length points.now.points) list.now }
    ensures { IsTrue result ↔ All (λ p. function_at points.now p ≡ Some function) list.now }
{
    for p in list {
        if !stands(points, function, *p) {
            return false;
        }
    }
    true
}

/// Whether the operands of an action stand in a function.
fn operands_stand(points: &Points, function: u32, action: &Action) -> bool
    requires { AllOperands (λ a. a < length points.now.points) action.now }
    ensures { IsTrue result ↔ AllOperands (λ a. function_at points.now a ≡ Some function) action.now }
{
    match action {
        Action::Value { .. }
        | Action::Null { .. }
        | Action::Func { .. }
        | Action::SelfId
        | Action::Root(_)
        | Action::Text(_)
        | Action::SlotRead(_)
        | Action::Skip
        | Action::ExitThread
        | Action::ExitProcess => true,
        Action::Field { a, .. }
        | Action::Read { a, .. }
        | Action::SlotWrite { a, .. }
        | Action::Unary { a, .. }
        | Action::Convert { a, .. }
        | Action::Branch(a)
        | Action::Switch { a, .. }
        | Action::Create { a, .. }
        | Action::StoreId(a)
        | Action::Join(a)
        | Action::Detach(a)
        | Action::Lock(a)
        | Action::Unlock(a)
        | Action::Retake(a)
        | Action::Init(a)
        | Action::Destroy(a)
        | Action::Signal(a)
        | Action::Free(a)
        | Action::Scan(a)
        | Action::Fill { a, .. } => stands(points, function, *a),
        Action::Index { a, b, .. }
        | Action::Write { a, b, .. }
        | Action::Binary { a, b, .. }
        | Action::Release { cond: a, mutex: b } => {
            stands(points, function, *a) && stands(points, function, *b)
        }
        Action::Compute { args, .. } | Action::Call { args, .. } => {
            all_stand(points, function, args.list())
        }
        Action::PointerCall { a, args } => {
            stands(points, function, *a) && all_stand(points, function, args.list())
        }
        Action::Return(a) | Action::Allocate { count: a, .. } => match a {
            Some(b) => stands(points, function, *b),
            None => true,
        },
    }
}

/// Whether the operands of a point stand in its function.
pub(crate) fn has_own_operands(points: &Points, p: u32) -> bool
    requires { p < length points.now.points }
    ensures { IsTrue result ↔ kept.HasOwnOperands points.now p }
{
    operands_stand(points, points.function(p), points.action(p))
}

/// Whether the successors of a point stand in its function.
pub(crate) fn has_own_successors(points: &Points, p: u32) -> bool
    requires { p < length points.now.points }
    ensures { IsTrue result ↔ kept.HasOwnSuccessors points.now p }
{
    all_stand(points, points.function(p), points.next(p))
}
