//! Which points name `main`.
ghost use Rattle.std.specs.Prelude.{◌≡◌, ◌↔◌, ◌<◌, IsTrue, length};
ghost use Rattle.lk_facts.specs.Lowered.{named_function};
ghost use Rattle.lk_point_ways.specs.Kept as kept;

use lk_facts::{Action, Points};

/// The function that an action calls, in which it starts a thread, or to which it gives a pointer.
fn named_function(action: &Action) -> Option<u32>
    ensures { result ≡ named_function action.now }
{
    match action {
        Action::Func { function, .. }
        | Action::Call { function, .. }
        | Action::Create { function, .. } => Some(*function),
        Action::Value { .. }
        | Action::Null { .. }
        | Action::SelfId
        | Action::Root(_)
        | Action::Text(_)
        | Action::Field { .. }
        | Action::Index { .. }
        | Action::Read { .. }
        | Action::Write { .. }
        | Action::SlotRead(_)
        | Action::SlotWrite { .. }
        | Action::Unary { .. }
        | Action::Binary { .. }
        | Action::Compute { .. }
        | Action::Convert { .. }
        | Action::Branch(_)
        | Action::Switch { .. }
        | Action::Skip
        | Action::PointerCall { .. }
        | Action::Return(_)
        | Action::StoreId(_)
        | Action::Join(_)
        | Action::Detach(_)
        | Action::ExitThread
        | Action::ExitProcess
        | Action::Lock(_)
        | Action::Unlock(_)
        | Action::Release { .. }
        | Action::Retake(_)
        | Action::Init(_)
        | Action::Destroy(_)
        | Action::Signal(_)
        | Action::Allocate { .. }
        | Action::Free(_)
        | Action::Scan(_)
        | Action::Fill { .. } => None,
    }
}

/// Whether a point neither calls `main` nor starts a thread there, nor takes its address.
pub(crate) fn avoids_main(points: &Points, p: u32) -> bool
    requires { p < length points.now.points }
    ensures { IsTrue result ↔ kept.AvoidsMain points.now p }
{
    named_function(points.action(p)) != Some(points.main())
}
